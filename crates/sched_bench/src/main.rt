//! Measures the plan of a round.
//!
//! Without words: how many orders the plans that are measured have. With the words `measure N`: the time of one plan, over
//! N plans a run.
#![tactic(auto)]

mod crowd;
mod measure;

use anyhow::{Result, anyhow};
use crowd::crowd;
use std::alloc::Global;
use std::env;
use std::io::Print;
use std::time::Clock;

/// The mask that names every reactor.
const EVERY: u32 = 65_535;

/// As many threads as the largest script has: 64 clients, the owners of 16 images, the app.
const LARGEST: u32 = 81;

fn main(rt: HostRuntime) -> Result<()> {
    let alloc = rt.alloc();
    let words: Vec<String> = env::args(&rt)?.collect(alloc)?;
    match words.get(1) {
        None => count_orders(&rt, alloc),
        Some(word) if word.as_str() == "measure" => measure_plan(&rt, alloc, words.get(2)),
        Some(_) => Err(anyhow!("the words are none, or: measure PLANS")),
    }
}

fn count_orders<R: Print>(rt: &R, alloc: Global) -> Result<()> {
    let rows = crowd(alloc, LARGEST)?;
    let masks = vec![in alloc; EVERY; LARGEST as usize]?;
    let orders = measure::planned(alloc, rows.as_slice(), masks.as_slice(), 1)?;
    println!(rt; "{LARGEST} rows on 16 reactors, {orders} orders")?;
    Ok(())
}

fn measure_plan<R: Clock + Print>(rt: &R, alloc: Global, plans: Option<&String>) -> Result<()> {
    let plans: u32 = match plans {
        Some(word) => word.parse()?,
        None => 100_000,
    };
    let rows = crowd(alloc, LARGEST)?;
    let masks = vec![in alloc; EVERY; LARGEST as usize]?;
    let nanos = measure::nanos_a_plan(rt, alloc, rows.as_slice(), masks.as_slice(), plans)?;
    println!(rt;
        "{LARGEST} rows on 16 reactors: {nanos} nanoseconds a plan, best of 5 runs of {plans}"
    )?;
    Ok(())
}
