//! Runs message rings among machine threads.
//!
//! Without words: four senders against a receiver that takes and tries to close, checked message by message. With the
//! words `measure N`: messages per second of a ring, beside those of the plain queue, over N messages a run.
#![tactic(auto)]

mod measure;
mod note;
mod plain;
mod ringed;
mod storm;

use anyhow::{Result, anyhow};
use measure::Rates;
use ringed::Way;
use std::alloc::Global;
use std::env;
use std::io::Print;
use std::sync::Wait;
use std::thread::Threads;
use std::time::Clock;

/// The cases of one to three sending threads, singly and in runs of eight.
const SENDING: [&str; 3] = ["1 sending thread", "2 sending threads", "3 sending threads"];

const SENDING_RUNS: [&str; 3] = ["1, in runs of 8", "2, in runs of 8", "3, in runs of 8"];

fn main(rt: HostRuntime) -> Result<()> {
    let alloc = rt.alloc();
    let words: Vec<String> = env::args(&rt)?.collect(alloc)?;
    match words.get(1) {
        None => check_storm(&rt, alloc),
        Some(word) if word.as_str() == "measure" => measure_all(&rt, alloc, words.get(2)),
        Some(_) => Err(anyhow!("the words are none, or: measure MESSAGES")),
    }
}

fn check_storm<R: Threads + Wait + Sync + Print>(rt: &R, alloc: Global) -> Result<()> {
    if !storm::is_calm(rt, alloc)? {
        return Err(anyhow!("a message was lost, doubled or out of order"));
    }
    println!(rt; "each message arrived once and in its sender's order, or came back")?;
    Ok(())
}

// Prints a line for each case.
fn measure_all<R: Threads + Wait + Sync + Clock + Print>(
    rt: &R,
    alloc: Global,
    messages: Option<&String>,
) -> Result<()> {
    let messages: u64 = match messages {
        Some(word) => word.parse()?,
        None => 1_000_000,
    };
    println!(rt; "best of 5 runs of {messages} messages, in messages per second")?;
    measure_one_thread(rt, alloc, messages)?;
    for senders in 1..=3u32 {
        let singly = measure::among_threads(rt, alloc, messages, senders, Way::Singly)?;
        print_rates(rt, SENDING[senders as usize - 1], singly)?;
    }
    for senders in 1..=3u32 {
        let in_runs = measure::among_threads(rt, alloc, messages, senders, Way::InRuns)?;
        print_rates(rt, SENDING_RUNS[senders as usize - 1], in_runs)?;
    }
    print_rates(
        rt,
        "takes of nothing",
        measure::of_nothing(rt, alloc, messages)?,
    )?;
    Ok(())
}

// The cases on one thread.
fn measure_one_thread<R: Wait + Clock + Print>(rt: &R, alloc: Global, messages: u64) -> Result<()> {
    for (case, batch) in [("one thread, 1 and 1", 1), ("one thread, 8 and 8", 8)] {
        print_rates(
            rt,
            case,
            measure::on_one_thread(rt, alloc, messages, batch, Way::Singly)?,
        )?;
    }
    for (case, batch) in [("a run of 2", 2), ("a run of 4", 4), ("a run of 8", 8)] {
        print_rates(
            rt,
            case,
            measure::on_one_thread(rt, alloc, messages, batch, Way::InRuns)?,
        )?;
    }
    Ok(())
}

fn print_rates(rt: &impl Print, case: &str, rates: Rates) -> Result<()> {
    let Rates { ring, queue } = rates;
    let (whole, part) = (rates.ratio() / 100, rates.ratio() % 100);
    println!(rt; "{case:<20} ring {ring:>10}  queue {queue:>10}  ratio {whole}.{part:02}")?;
    Ok(())
}
