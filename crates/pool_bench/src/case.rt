//! What is measured, and rates.
use crate::{images, plain, pooled};
use anyhow::Result;
use lw_base::NoMemory;
use std::alloc::Global;
use std::cmp;
use std::sync::Wait;
use std::thread::Threads;
use std::time::{Clock, Instant};

/// How often each case is run, ours and the plain one in turn. The best run of each counts.
const RUNS: u32 = 5;

/// What is measured beside something plain.
#[derive(Clone, Copy, PartialEq, Eq, Debug)]
pub enum Case {
    /// Takes and give-backs on one machine thread.
    OneThread,
    /// Takes and give-backs on three machine threads.
    ThreeThreads,
    /// Reads of an image.
    Read,
    /// Writes to an image.
    Write,
}

/// Rounds per second.
#[derive(Clone, Copy)]
pub struct Rates {
    /// Of the pool or the image.
    pub ours: u64,
    /// Of the plain form.
    pub plain: u64,
}

impl Rates {
    /// Our rate in hundredths of the plain one.
    pub fn ratio(self) -> u64 {
        self.ours.saturating_mul(100) / cmp::max(self.plain, 1)
    }
}

impl Case {
    /// The rates of so many rounds.
    pub fn measured<R: Threads + Wait + Sync + Clock>(
        self,
        rt: &R,
        alloc: Global,
        rounds: u32,
    ) -> Result<Rates> {
        let mut best = Rates { ours: 0, plain: 0 };
        for _ in 0..RUNS {
            let start = Instant::now(rt)?;
            let made = self.ours(rt, alloc, rounds)?;
            best.ours = cmp::max(best.ours, per_second(rt, start, made)?);
            let start = Instant::now(rt)?;
            let made = self.plain(rt, alloc, rounds)?;
            best.plain = cmp::max(best.plain, per_second(rt, start, made)?);
        }
        Ok(best)
    }

    // Makes so many rounds, and answers how many were made.
    fn ours<R: Threads + Wait + Sync>(
        self,
        rt: &R,
        alloc: Global,
        rounds: u32,
    ) -> Result<u64, NoMemory> {
        match self {
            Case::OneThread => pooled::run(rt, alloc, rounds, 1),
            Case::ThreeThreads => pooled::run(rt, alloc, rounds / 3, 3),
            Case::Read => images::reads(rt, alloc, rounds),
            Case::Write => images::writes(alloc, rounds),
        }
    }

    fn plain<R: Threads + Wait + Sync>(
        self,
        rt: &R,
        alloc: Global,
        rounds: u32,
    ) -> Result<u64, NoMemory> {
        match self {
            Case::OneThread => plain::pops_and_pushes(rt, alloc, rounds, 1),
            Case::ThreeThreads => plain::pops_and_pushes(rt, alloc, rounds / 3, 3),
            Case::Read => plain::copies_out(alloc, rounds),
            Case::Write => plain::copies_in(alloc, rounds),
        }
    }
}

// How many rounds a second it were, had they begun at `start`.
fn per_second<R: Clock>(rt: &R, start: Instant, rounds: u64) -> Result<u64> {
    let spent = start.elapsed(rt)?.as_micros();
    let micros = cmp::max(u64::try_from(spent).unwrap_or(u64::MAX), 1);
    Ok(rounds.saturating_mul(1_000_000) / micros)
}
