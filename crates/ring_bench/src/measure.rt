//! Messages per second.
ghost use Rattle.std.specs.Prelude.{◌≤◌};
ghost use Rattle.lw_latch.specs.RingWord.{most_senders};

use crate::ringed::{BATCH, Way};
use crate::{plain, ringed};
use anyhow::Result;
use std::alloc::{AllocError, Global};
use std::cmp;
use std::sync::Wait;
use std::thread::Threads;
use std::time::{Clock, Instant};

/// How often each case is run, a ring and a queue in turn. The best run of each counts.
const RUNS: u32 = 5;

/// Messages per second.
#[derive(Clone, Copy)]
pub struct Rates {
    pub ring: u64,
    pub queue: u64,
}

impl Rates {
    fn better(self, other: Rates) -> Rates {
        Rates {
            ring: cmp::max(self.ring, other.ring),
            queue: cmp::max(self.queue, other.queue),
        }
    }

    /// The ring's rate in hundredths of the queue's.
    pub fn ratio(self) -> u64 {
        self.ring.saturating_mul(100) / cmp::max(self.queue, 1)
    }
}

/// One thread that sends `batch` messages and takes them, over and over.
pub fn on_one_thread<R: Wait + Clock>(
    rt: &R,
    alloc: Global,
    messages: u64,
    batch: usize,
    way: Way,
) -> Result<Rates>
    requires { (1 ≤ batch) × (batch ≤ BATCH) }
{
    let rounds = messages / batch as u64;
    let mut best = Rates { ring: 0, queue: 0 };
    for _ in 0..RUNS {
        let start = Instant::now(rt)?;
        let taken = ringed::on_one_thread(rt, alloc, rounds, batch, way)?;
        let ring = per_second(rt, start, taken)?;
        let start = Instant::now(rt)?;
        let popped = plain::on_one_thread(rt, alloc, rounds, batch)?;
        let queue = per_second(rt, start, popped)?;
        best = best.better(Rates { ring, queue });
    }
    Ok(best)
}

/// So many machine threads that send, and one that receives.
pub fn among_threads<R: Threads + Wait + Sync + Clock>(
    rt: &R,
    alloc: Global,
    messages: u64,
    senders: u32,
    way: Way,
) -> Result<Rates>
    requires { (1 ≤ senders) × (senders ≤ most_senders) }
{
    let each = messages / u64::from(senders);
    let mut best = Rates { ring: 0, queue: 0 };
    for _ in 0..RUNS {
        let start = Instant::now(rt)?;
        let taken = ringed::among_threads(rt, alloc, senders, each, way)?;
        let ring = per_second(rt, start, taken)?;
        let start = Instant::now(rt)?;
        let popped = plain::among_threads(rt, alloc, senders, each)?;
        let queue = per_second(rt, start, popped)?;
        best = best.better(Rates { ring, queue });
    }
    Ok(best)
}

/// Takes of an empty ring, and pops of an empty queue.
pub fn of_nothing<R: Wait + Clock>(rt: &R, alloc: Global, takes: u64) -> Result<Rates> {
    let mut best = Rates { ring: 0, queue: 0 };
    for _ in 0..RUNS {
        let start = Instant::now(rt)?;
        let looked = ringed::empty_takes(rt, alloc, takes)?;
        let ring = per_second(rt, start, looked)?;
        let start = Instant::now(rt)?;
        let popped = plain::empty_pops(rt, alloc, takes)?;
        let queue = per_second(rt, start, popped)?;
        best = best.better(Rates { ring, queue });
    }
    Ok(best)
}

// How many messages a second it were, had they begun at `start`.
fn per_second<R: Clock>(rt: &R, start: Instant, messages: u64) -> Result<u64> {
    let spent = start.elapsed(rt)?.as_micros();
    let micros = cmp::max(u64::try_from(spent).unwrap_or(u64::MAX), 1);
    Ok(messages.saturating_mul(1_000_000) / micros)
}
