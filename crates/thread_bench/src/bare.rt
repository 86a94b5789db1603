//! Messages over a ring alone.
ghost use Rattle.std.specs.Prelude.{◌≡◌, ◌≤◌, [], Some, IfOk, OnOk, All, vec_capacity};
ghost use Rattle.lw_latch.specs.RingWord.{most_senders};

use crate::note::{Note, put, put_run};
use lw_base::NoMemory;
use lw_ring::{RecvEnd, SendEnd, ring};
use std::alloc::Global;
use std::sync::Wait;

/// How many messages are sent and taken at once, at most.
pub const BATCH: usize = 8;

/// Sends `batch` messages and takes them, `rounds` times: singly where `batch` is 1, and else in one run. Answers how many were
/// taken.
pub fn bare<R: Wait>(rt: &R, alloc: Global, rounds: u64, batch: usize) -> Result<u64, NoMemory>
    requires { (1 ≤ batch) × (batch ≤ BATCH) }
{
    let (recv, mut ends) = ring_of(alloc, 1)?;
    let Some(end) = ends.pop() else {
        return Ok(0);
    };
    if batch == 1 {
        return in_turn(rt, alloc, recv, end, rounds, batch);
    }
    runs_in_turn(rt, alloc, recv, end, rounds, batch)
}

fn ring_of(alloc: Global, senders: u32) -> Result<(RecvEnd<Note>, Vec<SendEnd<Note>>), NoMemory>
    requires { (1 ≤ senders) × (senders ≤ most_senders) }
    ensures recv { IfOk result (λ r. r.0.closed ≡ 0) }
    ensures ends { IfOk result (λ r. All (λ e. e.family ≡ Some tt) r.1.items) }
{
    ring::<Note>(alloc, senders, 0)
}

fn in_turn<R: Wait>(
    rt: &R,
    alloc: Global,
    mut recv: RecvEnd<Note>,
    mut end: SendEnd<Note>,
    rounds: u64,
    batch: usize,
) -> Result<u64, NoMemory>
    requires recv { recv.closed ≡ 0 }
    requires end { end.family ≡ Some tt }
{
    let mut taken = Vec::with_capacity(alloc, batch)?;
    for _ in 0..rounds {
        put_many(rt, &mut end, batch as u64);
        recv.take_into(rt, batch, &mut taken);
        taken.clear();
    }
    Ok(recv.taken())
}

// Sends so many messages.
fn put_many<R: Wait>(rt: &R, end: &mut SendEnd<Note>, count: u64)
    requires { end.old.family ≡ Some tt }
    ensures { end.new.family ≡ end.old.family }
{
    for _ in 0..count {
        let _answer = put(rt, end);
    }
}

// The same with runs, whose vectors are used again.
fn runs_in_turn<R: Wait>(
    rt: &R,
    alloc: Global,
    mut recv: RecvEnd<Note>,
    mut end: SendEnd<Note>,
    rounds: u64,
    batch: usize,
) -> Result<u64, NoMemory>
    requires batch { (1 ≤ batch) × (batch ≤ BATCH) }
    requires recv { recv.closed ≡ 0 }
    requires end { end.family ≡ Some tt }
{
    let mut taken = Vec::with_capacity(alloc, batch)?;
    for _ in 0..rounds {
        let run = match recv.spare() {
            Some(run) => run,
            None => Vec::with_capacity(alloc, batch)?,
        };
        put_run(rt, &mut end, run, batch as u64)?;
        recv.take_into(rt, batch, &mut taken);
        taken.clear();
    }
    Ok(recv.taken())
}
