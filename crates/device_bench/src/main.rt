//! Runs the latch of a device among machine threads.
//!
//! Without words: eight seats give and release until they find the latch shut, and a ninth shuts it and fires; what was
//! given is checked, ordinal by ordinal. With the words `measure N`: gives and releases per second, beside the bare two
//! additions, N a run.
#![tactic(auto)]

mod latched;
mod measure;
mod plain;
mod storm;

use anyhow::{Result, anyhow};
use measure::Rates;
use std::alloc::Global;
use std::env;
use std::io::Print;
use std::sync::Wait;
use std::thread::Threads;
use std::time::Clock;

fn main(rt: HostRuntime) -> Result<()> {
    let alloc = rt.alloc();
    let words: Vec<String> = env::args(&rt)?.collect(alloc)?;
    match words.get(1) {
        None => check_storm(&rt, alloc),
        Some(word) if word.as_str() == "measure" => measure_all(&rt, alloc, words.get(2)),
        Some(_) => Err(anyhow!("the words are none, or: measure ROUNDS")),
    }
}

fn check_storm<R: Threads + Wait + Sync + Print>(rt: &R, alloc: Global) -> Result<()> {
    if !storm::is_whole(rt, alloc)? {
        return Err(anyhow!(
            "an ordinal was lost or doubled, or a seat did not find the latch shut"
        ));
    }
    println!(rt; "each ordinal below the count that was told was given once")?;
    Ok(())
}

// Prints a line for one thread and one for three.
fn measure_all<R: Threads + Sync + Clock + Print>(
    rt: &R,
    alloc: Global,
    rounds: Option<&String>,
) -> Result<()> {
    let rounds: u32 = match rounds {
        Some(word) => word.parse()?,
        None => 3_000_000,
    };
    println!(rt; "best of 5 runs of {rounds} gives and releases, per second")?;
    print_rates(rt, "one thread", measure::measured(rt, alloc, rounds, 1)?)?;
    print_rates(
        rt,
        "three threads",
        measure::measured(rt, alloc, rounds, 3)?,
    )
}

fn print_rates(rt: &impl Print, case: &str, rates: Rates) -> Result<()> {
    let Rates { latch, word } = rates;
    let (whole, part) = (rates.ratio() / 100, rates.ratio() % 100);
    println!(rt; "{case:<14} latch {latch:>10}  word {word:>10}  ratio {whole}.{part:02}")?;
    Ok(())
}
