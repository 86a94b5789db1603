//! The numbers of a record's lines in its text.
ghost use Rattle.std.specs.Prelude.{◌≡◌, ◌+◌, ◌<◌, ◌^◌, IfOk, IfSome, None, Some, cond, length};
ghost use Rattle.std.specs.List.{sum_by};
ghost use Rattle.lw_model.specs.Lines.{head_size, round_size};
ghost use Rattle.lw_judge_threads.specs.Firsts.{at_line, lesser};
ghost use Rattle.lw_judge_threads.specs.LinesOf.{AreLines, IsLayout};

use lw_base::{NoMemory, Round};
use lw_model::{Record, Script, ThreadRecord};
use std::alloc::{AllocError, Global};

/// The number of the first line of each kind that a thread has, or would have.
#[derive(Copy, Clone, Drop)]
pub struct ThreadLines {
    pub thread: u64,
    pub hops: u64,
    pub ran: u64,
    pub did: u64,
    pub called: u64,
    pub replies: u64,
    pub seen: u64,
    /// The line behind the thread's last.
    pub behind: u64,
}

/// Where a record's lines stand.
#[derive(Drop)]
pub struct Layout {
    /// The lines of each thread.
    pub threads: Vec<ThreadLines>,
    /// The line of device 0.
    pub devices: u64,
    /// The line behind the devices': a dynamic run's `clock` line.
    pub clock: u64,
    /// The line of the pool's counts.
    pub home: u64,
}

impl Layout {
    /// Where a record's lines stand. A record with more lines than a number counts isn't in any memory, so that there
    /// is no memory for it.
    pub fn of(alloc: Global, of: &Record) -> Result<Self, NoMemory>
        ensures { IfOk result (IsLayout of.now) }
    {
        let mut behind = after(head_size(&of.script)?, 1)?;
        let mut threads = Vec::new(alloc);
        for thread in of.threads.as_slice() {
            let lines = lines_of(thread, behind)?;
            behind = lines.behind;
            threads.push(lines)?;
        }
        let clock = after(behind, of.devices.len())?;
        let home = match of.span {
            Some(_) => behind_rounds(of.rounds.as_slice(), after(clock, 1)?)?,
            None => clock,
        };
        Ok(Layout {
            threads,
            devices: behind,
            clock,
            home,
        })
    }
}

// The line behind rounds of which the first has this line.
fn behind_rounds(rounds: &[Round], first: u64) -> Result<u64, NoMemory>
    ensures { IfOk result (λ n. n ≡ first + sum_by round_size rounds.now) }
{
    let mut line = first;
    for round in rounds {
        line = behind_round(round, line)?;
    }
    Ok(line)
}

/// The line behind a round whose line this is, by `after`.
pub fn behind_round(round: &Round, line: u64) -> Result<u64, NoMemory>
    ensures sum { IfOk result (λ n. n ≡ line + round_size round.now) }
    ensures few { IfOk result (λ n. n < 2 ^ 64) }
{
    let rows = after(line, 1)?;
    after(after(rows, round.rows.len())?, round.orders.len())
}

// The lines before the first thread's.
fn head_size(script: &Script) -> Result<u64, NoMemory>
    ensures { IfOk result (λ n. n ≡ head_size script.now) }
{
    let mut size = after(7, script.images.len())?;
    for client in script.clients.as_slice() {
        size = after(after(size, 1)?, client.ops.len())?;
    }
    Ok(size)
}

/// The line after so many from the first on. One whose number doesn't fit isn't in any memory.
pub fn after(first: u64, count: usize) -> Result<u64, NoMemory>
    ensures sum { IfOk result (λ n. n ≡ first + count) }
    ensures few { IfOk result (λ n. n < 2 ^ 64) }
{
    first.checked_add(count as u64).ok_or(AllocError)
}

// The lines of a thread whose first line has this number.
fn lines_of(thread: &ThreadRecord, first: u64) -> Result<ThreadLines, NoMemory>
    ensures lines { IfOk result (AreLines thread.now first) }
    ensures few { IfOk result (λ l. l.behind < 2 ^ 64) }
{
    let hops = after(first, 1)?;
    let ran = after(hops, thread.hops.len())?;
    let did = after(ran, thread.ran.len())?;
    let called = after(did, thread.did.len())?;
    let replies = after(called, thread.called.len())?;
    let seen = after(replies, thread.replies.len())?;
    let behind = after(seen, thread.seen.len())?;
    Ok(ThreadLines {
        thread: first,
        hops,
        ran,
        did,
        called,
        replies,
        seen,
        behind,
    })
}

/// The lesser of two lines, of which each may be none.
pub fn lesser(one: Option<u64>, other: Option<u64>) -> Option<u64>
    ensures { result ≡ lesser one other }
{
    match (one, other) {
        (None, line) | (line, None) => line,
        (Some(one), Some(other)) => Some(one.min(other)),
    }
}

/// A line at which something has to hold, where it doesn't.
pub fn failing(holds: bool, line: u64) -> Option<u64>
    ensures { result ≡ cond holds None (Some line) }
{
    if holds { None } else { Some(line) }
}

/// The line of a place among lines from `base` on.
pub fn at_line(base: u64, place: Option<usize>) -> Option<u64>
    requires { IfSome place (λ i. base + i < 2 ^ 64) }
    ensures { result ≡ at_line base place }
{
    match place {
        Some(place) => Some(base + place as u64),
        None => None,
    }
}
