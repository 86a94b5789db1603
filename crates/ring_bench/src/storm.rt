//! Four senders, each on a machine thread of its own, against a receiver that takes and tries to close.
ghost use Rattle.std.specs.Prelude.{◌≡◌, Some, IfOk, IsSome, All};
ghost use Rattle.std.specs.Bool.{OnFalse};

use crate::note::{Note, put_run};
use lw_base::NoMemory;
use lw_ring::{Closing, RecvEnd, SendEnd, SendRefusal, ring};
use std::alloc::Global;
use std::sync::Wait;
use std::sync::atomic::{AtomicU64, Ordering};
use std::thread;
use std::thread::Threads;

/// How often each of the four senders tries to send one message and then a run.
const ROUNDS: u64 = 1_250;

/// How many messages a run has.
const RUN: u64 = 7;

/// How many messages each sender tries to send.
const EACH: u64 = 10_000;

/// From how many messages on the receiver tries to close.
const CLOSE_FROM: u64 = 20_000;

/// How often the receiver looks before it gives up.
const LOOKS: u64 = 1_000_000_000;

/// What the receiver found.
#[derive(Drop)]
struct Found {
    /// Of each sender, how many messages came, and so the number of its next one.
    next: [u64; 4],
    in_order: bool,
    closed: bool,
}

/// Whether each message arrived once and in its sender's order, or came back because the ring was closed.
pub fn is_calm<R: Threads + Wait + Sync>(rt: &R, alloc: Global) -> Result<bool, NoMemory> {
    let (recv, ends) = ring_of_four(alloc)?;
    let refused = AtomicU64::new(0);
    let (ends, found) = run_both(rt, alloc, recv, ends, &refused);
    let found = found?;
    let came_back = refused.load(Ordering::SeqCst);
    Ok(found.in_order && found.closed && is_whole(&ends, &found.next, came_back))
}

fn ring_of_four(alloc: Global) -> Result<(RecvEnd<Note>, Vec<SendEnd<Note>>), NoMemory>
    ensures recv { IfOk result (λ r. IsSome r.0.latch × (r.0.closed ≡ 0)) }
    ensures ends { IfOk result (λ r. All (λ e. e.family ≡ Some tt) r.1.items) }
{
    ring::<Note>(alloc, 4, 0)
}

// The senders and the receiver, side by side.
fn run_both<R: Threads + Wait + Sync>(
    rt: &R,
    alloc: Global,
    recv: RecvEnd<Note>,
    ends: Vec<SendEnd<Note>>,
    refused: &AtomicU64,
) -> (Vec<SendEnd<Note>>, Result<Found, NoMemory>)
    requires recv { IsSome recv.latch × (recv.closed ≡ 0) }
    requires ends { All (λ e. e.family ≡ Some tt) ends.items }
{
    thread::join(
        rt,
        move ||
            requires { All (λ e. e.family ≡ Some tt) ends.items }
        { send_all(rt, alloc, ends, refused) },
        move ||
            requires { IsSome recv.latch × (recv.closed ≡ 0) }
        { receive(rt, alloc, recv) },
    )
}

fn send_all<R: Threads + Wait + Sync>(
    rt: &R,
    alloc: Global,
    mut ends: Vec<SendEnd<Note>>,
    refused: &AtomicU64,
) -> Vec<SendEnd<Note>>
    requires { All (λ e. e.family ≡ Some tt) ends.items }
{
    thread::for_each_mut(
        rt,
        ends.as_mut_slice(),
        4,
        &|_, end| {
            let _answer = send_many(rt, alloc, end, refused);
        },
    );
    ends
}

// Tries to send all messages of one sender, singly and in runs by turns, and counts those that came back because the ring
// was closed.
fn send_many<R: Wait>(
    rt: &R,
    alloc: Global,
    end: &mut SendEnd<Note>,
    refused: &AtomicU64,
) -> Result<(), NoMemory>
    requires { end.old.family ≡ Some tt }
{
    for _ in 0..ROUNDS {
        if send_one(rt, end) {
            refused.fetch_add(1, Ordering::SeqCst);
        }
        if send_a_run(rt, alloc, end)? {
            refused.fetch_add(RUN, Ordering::SeqCst);
        }
    }
    Ok(())
}

// Whether the next message came back because the ring is closed.
fn send_one<R: Wait>(rt: &R, end: &mut SendEnd<Note>) -> bool
    requires { end.old.family ≡ Some tt }
    ensures { end.new.family ≡ end.old.family }
{
    let note = Note::new(end.sender(), end.sent());
    match end.send(rt, note) {
        Err(SendRefusal::Exited(back)) => back == note,
        _ => false,
    }
}

// Whether the next run came back whole and in order because the ring is closed.
fn send_a_run<R: Wait>(rt: &R, alloc: Global, end: &mut SendEnd<Note>) -> Result<bool, NoMemory>
    requires { end.old.family ≡ Some tt }
    ensures { end.new.family ≡ end.old.family }
{
    let first = end.sent();
    let run = Vec::with_capacity(alloc, RUN as usize)?;
    match put_run(rt, end, run, RUN)? {
        Some(SendRefusal::Exited(back)) => Ok(is_run(&back, first)),
        _ => Ok(false),
    }
}

// Whether these are as many notes as a run has, numbered from `first` on.
fn is_run(notes: &[Note], first: u64) -> bool {
    let mut next = first;
    for note in notes {
        if note.tag.number != next {
            return false;
        }
        next = next.saturating_add(1);
    }
    notes.len() as u64 == RUN
}

fn receive<R: Wait>(rt: &R, alloc: Global, mut recv: RecvEnd<Note>) -> Result<Found, NoMemory>
    requires { IsSome recv.latch × (recv.closed ≡ 0) }
{
    let mut found = Found {
        next: [0; 4],
        in_order: true,
        closed: false,
    };
    let mut batch = Vec::with_capacity(alloc, 8)?;
    for _ in 0..LOOKS {
        recv.take_into(rt, 8, &mut batch);
        found.add(&batch);
        if batch.is_empty() {
            thread::yield_now();
        }
        batch.clear();
        if try_close(&mut recv) {
            found.closed = true;
            return Ok(found);
        }
    }
    Ok(found)
}

// Tries to close, once enough was taken.
fn try_close(recv: &mut RecvEnd<Note>) -> bool
    requires { IsSome recv.old.latch × (recv.old.closed ≡ 0) }
    ensures latch { IsSome recv.new.latch }
    ensures not_closed { OnFalse result (recv.new.closed ≡ 0) }
{
    if recv.taken() < CLOSE_FROM {
        return false;
    }
    recv.close() == Closing::Closed
}

impl Found {
    // Notes that these messages came, in this order.
    fn add(&mut self, batch: &[Note]) {
        for note in batch {
            match self.next.get_mut(note.tag.sender as usize) {
                Some(next) if *next == note.tag.number && note.value == *next => {
                    *next = next.saturating_add(1);
                }
                _ => self.in_order = false,
            }
        }
    }
}

// Whether what came of each sender is what it sent, and with what came back is all that was tried.
fn is_whole(ends: &[SendEnd<Note>], next: &[u64], came_back: u64) -> bool {
    let mut tried = came_back;
    for (end, next) in ends.iter().zip(next) {
        if end.sent() != *next {
            return false;
        }
        tried = tried.saturating_add(*next);
    }
    ends.len() == 4 && tried == 4 * EACH
}
