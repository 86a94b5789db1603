//! Messages over a ring.
ghost use Rattle.std.specs.Prelude.{◌≡◌, ◌<◌, ◌≤◌, [], Some, IfOk, OnOk, All, length, vec_capacity};
ghost use Rattle.lw_latch.specs.RingWord.{most_senders};
ghost use Rattle.lw_ring.specs.Calls.{NamedFrom};

use crate::note::{Note, put, put_run};
use lw_base::NoMemory;
use lw_ring::{RecvEnd, SendEnd, ring};
use std::alloc::Global;
use std::sync::Wait;
use std::thread;
use std::thread::Threads;

/// How messages are sent.
#[derive(Clone, Copy, PartialEq, Eq, Debug)]
pub enum Way {
    Singly,
    /// So many as are sent before a take go in one run.
    InRuns,
}

/// How many messages a receiver takes at most.
pub const BATCH: usize = 8;

fn ring_of(alloc: Global, senders: u32) -> Result<(RecvEnd<Note>, Vec<SendEnd<Note>>), NoMemory>
    requires { (1 ≤ senders) × (senders ≤ most_senders) }
    ensures recv { IfOk result (λ r. r.0.closed ≡ 0) }
    ensures ends { IfOk result (λ r. All (λ e. e.family ≡ Some tt) r.1.items) }
{
    ring::<Note>(alloc, senders, 0)
}

/// Sends `batch` messages and takes them, `rounds` times, on one thread. Answers how many were taken.
pub fn on_one_thread<R: Wait>(
    rt: &R,
    alloc: Global,
    rounds: u64,
    batch: usize,
    way: Way,
) -> Result<u64, NoMemory>
    requires { (1 ≤ batch) × (batch ≤ BATCH) }
{
    let (recv, mut ends) = ring_of(alloc, 1)?;
    match (ends.pop(), way) {
        (Some(end), Way::Singly) => in_turn(rt, alloc, recv, end, rounds, batch),
        (Some(end), Way::InRuns) => runs_in_turn(rt, alloc, recv, end, rounds, batch),
        (None, _) => Ok(0),
    }
}

fn in_turn<R: Wait>(
    rt: &R,
    alloc: Global,
    mut recv: RecvEnd<Note>,
    mut end: SendEnd<Note>,
    rounds: u64,
    batch: usize,
) -> Result<u64, NoMemory>
    requires recv { recv.closed ≡ 0 }
    requires end { end.family ≡ Some tt }
{
    let mut taken = Vec::with_capacity(alloc, batch)?;
    for _ in 0..rounds {
        put_many(rt, &mut end, batch as u64);
        recv.take_into(rt, batch, &mut taken);
        taken.clear();
    }
    Ok(recv.taken())
}

// The same with runs, whose vectors are used again.
fn runs_in_turn<R: Wait>(
    rt: &R,
    alloc: Global,
    mut recv: RecvEnd<Note>,
    mut end: SendEnd<Note>,
    rounds: u64,
    batch: usize,
) -> Result<u64, NoMemory>
    requires batch { (1 ≤ batch) × (batch ≤ BATCH) }
    requires recv { recv.closed ≡ 0 }
    requires end { end.family ≡ Some tt }
{
    let mut taken = Vec::with_capacity(alloc, batch)?;
    for _ in 0..rounds {
        let run = match recv.spare() {
            Some(run) => run,
            None => Vec::with_capacity(alloc, batch)?,
        };
        put_run(rt, &mut end, run, batch as u64)?;
        recv.take_into(rt, batch, &mut taken);
        taken.clear();
    }
    Ok(recv.taken())
}

// Sends so many messages.
fn put_many<R: Wait>(rt: &R, end: &mut SendEnd<Note>, count: u64)
    requires { end.old.family ≡ Some tt }
    ensures { end.new.family ≡ end.old.family }
{
    for _ in 0..count {
        let _answer = put(rt, end);
    }
}

// Sends so many runs of eight, each in a vector of its own.
fn put_many_runs<R: Wait>(
    rt: &R,
    alloc: Global,
    end: &mut SendEnd<Note>,
    count: u64,
) -> Result<(), NoMemory>
    requires { end.old.family ≡ Some tt }
{
    for _ in 0..count {
        let run = Vec::with_capacity(alloc, BATCH)?;
        put_run(rt, end, run, BATCH as u64)?;
    }
    Ok(())
}

/// So many senders, each on a machine thread, send `each` messages to one receiver, singly or in runs of eight. Answers
/// how many were taken.
pub fn among_threads<R: Threads + Wait + Sync>(
    rt: &R,
    alloc: Global,
    senders: u32,
    each: u64,
    way: Way,
) -> Result<u64, NoMemory>
    requires { (1 ≤ senders) × (senders ≤ most_senders) }
{
    let (recv, ends) = ring_of(alloc, senders)?;
    let runs = each / BATCH as u64;
    match way {
        Way::Singly => side_by_side(rt, alloc, recv, ends, each, way, total(each, senders)),
        Way::InRuns => side_by_side(
            rt,
            alloc,
            recv,
            ends,
            runs,
            way,
            total(runs * BATCH as u64, senders),
        ),
    }
}

fn total(each: u64, senders: u32) -> u64 {
    each.saturating_mul(u64::from(senders))
}

fn side_by_side<R: Threads + Wait + Sync>(
    rt: &R,
    alloc: Global,
    recv: RecvEnd<Note>,
    ends: Vec<SendEnd<Note>>,
    each: u64,
    way: Way,
    all: u64,
) -> Result<u64, NoMemory>
    requires recv { recv.closed ≡ 0 }
    requires ends { All (λ e. e.family ≡ Some tt) ends.items }
{
    let (_, taken) = thread::join(
        rt,
        move ||
            requires { All (λ e. e.family ≡ Some tt) ends.items }
        { send_all(rt, alloc, ends, each, way) },
        move ||
            requires { recv.closed ≡ 0 }
        { take_all(rt, alloc, recv, all) },
    );
    taken
}

fn send_all<R: Threads + Wait + Sync>(
    rt: &R,
    alloc: Global,
    mut ends: Vec<SendEnd<Note>>,
    each: u64,
    way: Way,
)
    requires { All (λ e. e.family ≡ Some tt) ends.items }
{
    thread::for_each_mut(
        rt,
        ends.as_mut_slice(),
        4,
        &|_, end| send_each(rt, alloc, end, each, way),
    );
}

// One sender's messages, or its runs.
fn send_each<R: Wait>(rt: &R, alloc: Global, end: &mut SendEnd<Note>, each: u64, way: Way)
    requires { end.old.family ≡ Some tt }
{
    match way {
        Way::Singly => put_many(rt, end, each),
        Way::InRuns => {
            let _answer = put_many_runs(rt, alloc, end, each);
        }
    }
}

// Takes until `all` messages were taken.
fn take_all<R: Wait>(
    rt: &R,
    alloc: Global,
    mut recv: RecvEnd<Note>,
    all: u64,
) -> Result<u64, NoMemory>
    requires { recv.closed ≡ 0 }
{
    let mut taken = Vec::with_capacity(alloc, BATCH)?;
    for _ in rt.forever() {
        if recv.taken() >= all {
            return Ok(recv.taken());
        }
        recv.take_into(rt, BATCH, &mut taken);
        if taken.is_empty() {
            thread::yield_now();
        }
        taken.clear();
    }
    unreachable!()
}

/// So many takes of an empty ring.
pub fn empty_takes<R: Wait>(rt: &R, alloc: Global, takes: u64) -> Result<u64, NoMemory> {
    let (recv, ends) = ring_of(alloc, 1)?;
    look_often(rt, alloc, recv, takes)?;
    drop(ends);
    Ok(takes)
}

fn look_often<R: Wait>(
    rt: &R,
    alloc: Global,
    mut recv: RecvEnd<Note>,
    takes: u64,
) -> Result<(), NoMemory>
    requires { recv.closed ≡ 0 }
{
    let mut taken = Vec::with_capacity(alloc, BATCH)?;
    for _ in 0..takes {
        recv.take_into(rt, BATCH, &mut taken);
        taken.clear();
    }
    Ok(())
}
