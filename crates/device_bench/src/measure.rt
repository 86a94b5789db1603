//! Gives and releases per second.
ghost use Rattle.std.specs.Prelude.{◌≤◌};
ghost use Rattle.lw_latch.specs.DeviceWord.{most_seats};

use crate::{latched, plain};
use anyhow::Result;
use std::alloc::Global;
use std::cmp;
use std::thread::Threads;
use std::time::{Clock, Instant};

/// How often each case is run, the latch and the bare word in turn. The best run of each counts.
const RUNS: u32 = 5;

/// Rounds per second: gives and releases of a latch, and additions and subtractions of a bare word.
#[derive(Clone, Copy)]
pub struct Rates {
    pub latch: u64,
    pub word: u64,
}

impl Rates {
    /// The latch's rate in hundredths of the bare word's.
    pub fn ratio(self) -> u64 {
        self.latch.saturating_mul(100) / cmp::max(self.word, 1)
    }
}

/// The rates of so many rounds, shared among so many machine threads.
pub fn measured<R: Threads + Sync + Clock>(
    rt: &R,
    alloc: Global,
    rounds: u32,
    threads: u32,
) -> Result<Rates>
    requires { (1 ≤ threads) × (threads ≤ most_seats) }
{
    let mut best = Rates { latch: 0, word: 0 };
    for _ in 0..RUNS {
        let start = Instant::now(rt)?;
        latched::run(rt, alloc, rounds / threads, threads)?;
        best.latch = cmp::max(best.latch, per_second(rt, start, rounds)?);
        let start = Instant::now(rt)?;
        plain::run(rt, alloc, rounds / threads, threads)?;
        best.word = cmp::max(best.word, per_second(rt, start, rounds)?);
    }
    Ok(best)
}

// How many rounds a second it were, had they begun at `start`.
fn per_second<R: Clock>(rt: &R, start: Instant, rounds: u32) -> Result<u64> {
    let spent = start.elapsed(rt)?.as_micros();
    let micros = cmp::max(u64::try_from(spent).unwrap_or(u64::MAX), 1);
    Ok(u64::from(rounds).saturating_mul(1_000_000) / micros)
}
