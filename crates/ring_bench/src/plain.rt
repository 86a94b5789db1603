//! The same messages over the plain queue.
use crate::note::Note;
use crossbeam_queue::SegQueue;
use lw_base::NoMemory;
use std::alloc::Global;
use std::sync::Wait;
use std::thread;
use std::thread::Threads;

/// Pushes `batch` messages and pops them, `rounds` times, on one thread. Answers how many were popped.
pub fn on_one_thread<R: Wait>(
    rt: &R,
    alloc: Global,
    rounds: u64,
    batch: usize,
) -> Result<u64, NoMemory> {
    let queue = SegQueue::new(alloc)?;
    let mut popped: u64 = 0;
    for _ in 0..rounds {
        push_many(rt, &queue, batch as u64);
        popped = popped.saturating_add(pop_some(rt, &queue, batch));
    }
    Ok(popped)
}

fn push_many<R: Wait>(rt: &R, queue: &SegQueue<Note>, count: u64) {
    for number in 0..count {
        let _answer = queue.push(rt, Note::new(0, number));
    }
}

// Pops up to `most` messages, until there is none. Answers how many there were.
fn pop_some<R: Wait>(rt: &R, queue: &SegQueue<Note>, most: usize) -> u64 {
    let mut popped: u64 = 0;
    for _ in 0..most {
        match queue.pop(rt) {
            Some(_) => popped = popped.saturating_add(1),
            None => return popped,
        }
    }
    popped
}

/// So many machine threads push `each` messages for one that pops. Answers how many were popped.
pub fn among_threads<R: Threads + Wait + Sync>(
    rt: &R,
    alloc: Global,
    senders: u32,
    each: u64,
) -> Result<u64, NoMemory> {
    let queue = SegQueue::new(alloc)?;
    let shared = &queue;
    let all = each.saturating_mul(u64::from(senders));
    let mut senders = vec![in alloc; 0u32; senders as usize]?;
    let (_, popped) = thread::join(
        rt,
        || push_all(rt, shared, senders.as_mut_slice(), each),
        || pop_all(rt, shared, all),
    );
    Ok(popped)
}

fn push_all<R: Threads + Wait + Sync>(
    rt: &R,
    queue: &SegQueue<Note>,
    senders: &mut [u32],
    each: u64,
) {
    thread::for_each_mut(rt, senders, 4, &|_, _| push_many(rt, queue, each));
}

// Pops until `all` messages were popped.
fn pop_all<R: Wait>(rt: &R, queue: &SegQueue<Note>, all: u64) -> u64 {
    let mut popped: u64 = 0;
    for _ in rt.forever() {
        if popped >= all {
            return popped;
        }
        match pop_some(rt, queue, 8) {
            0 => thread::yield_now(),
            more => popped = popped.saturating_add(more),
        }
    }
    unreachable!()
}

/// So many pops of an empty queue.
pub fn empty_pops<R: Wait>(rt: &R, alloc: Global, pops: u64) -> Result<u64, NoMemory> {
    let queue: SegQueue<Note> = SegQueue::new(alloc)?;
    for _ in 0..pops {
        drop(queue.pop(rt));
    }
    Ok(pops)
}
