//! Runs the pool of read buffers among machine threads, and images against plain copies.
//!
//! Without words: three machine threads take buffers and give them back, and each take finds one. With the words
//! `pool N`: takes and give-backs per second, beside pops and pushes of the plain queue, N a run. With the words
//! `image N`: reads and writes of 131,072 bytes per second, beside plain copies of as many, N a run.
#![tactic(auto)]

mod case;
mod images;
mod plain;
mod pooled;

use anyhow::{Result, anyhow};
use case::{Case, Rates};
use std::alloc::Global;
use std::env;
use std::io::Print;
use std::sync::Wait;
use std::thread::Threads;
use std::time::Clock;

/// How many rounds each of the three threads makes without words.
const ROUNDS: u32 = 10_000;

fn main(rt: HostRuntime) -> Result<()> {
    let alloc = rt.alloc();
    let words: Vec<String> = env::args(&rt)?.collect(alloc)?;
    match (words.get(1), words.get(2)) {
        (None, None) => check(&rt, alloc),
        (Some(word), Some(rounds)) if word.as_str() == "pool" => {
            measure_pool(&rt, alloc, rounds.parse()?)
        }
        (Some(word), Some(rounds)) if word.as_str() == "image" => {
            measure_images(&rt, alloc, rounds.parse()?)
        }
        _ => Err(anyhow!("the words are none, pool ROUNDS, or image ROUNDS")),
    }
}

fn check<R: Threads + Wait + Sync + Print>(rt: &R, alloc: Global) -> Result<()> {
    if pooled::run(rt, alloc, ROUNDS, 3)? != 3 * u64::from(ROUNDS) {
        return Err(anyhow!("a take found no buffer"));
    }
    println!(rt; "each take found a buffer")?;
    Ok(())
}

fn measure_pool<R: Threads + Wait + Sync + Clock + Print>(
    rt: &R,
    alloc: Global,
    rounds: u32,
) -> Result<()> {
    println!(rt; "best of 5 runs of {rounds} takes and give-backs, per second")?;
    print_rates(
        rt,
        "one thread",
        Case::OneThread.measured(rt, alloc, rounds)?,
    )?;
    print_rates(
        rt,
        "three threads",
        Case::ThreeThreads.measured(rt, alloc, rounds)?,
    )
}

fn measure_images<R: Threads + Wait + Sync + Clock + Print>(
    rt: &R,
    alloc: Global,
    rounds: u32,
) -> Result<()> {
    println!(rt;
        "best of 5 runs of {rounds} reads, writes and copies of 131,072 bytes, per second"
    )?;
    print_rates(rt, "read", Case::Read.measured(rt, alloc, rounds)?)?;
    print_rates(rt, "write", Case::Write.measured(rt, alloc, rounds)?)
}

fn print_rates(rt: &impl Print, case: &str, rates: Rates) -> Result<()> {
    let Rates { ours, plain } = rates;
    let (whole, part) = (rates.ratio() / 100, rates.ratio() % 100);
    println!(rt; "{case:<14} {ours:>10}  plain {plain:>10}  ratio {whole}.{part:02}")?;
    Ok(())
}
