//! Runs light threads on one machine thread.
//!
//! Without words: two threads that send each other messages, whose sends are counted, and threads that have nothing to do. With
//! the words `measure N`: messages per second between two light threads, beside those of a ring alone, over N messages a run,
//! and nanoseconds of a poll that finds nothing. With the words `singly N`, `runs N` or `idle N` one of these is run once, for
//! N messages or polls.
#![tactic(auto)]

ghost use Rattle.std.specs.Prelude.{◌≤◌};

mod bare;
mod making;
mod note;
mod polled;
mod volley;

use anyhow::{Result, anyhow};
use std::alloc::Global;
use std::io::Print;
use std::sync::Wait;
use std::time::{Clock, Instant};
use std::{cmp, env};

/// How often each case is run. The best run counts.
const RUNS: u32 = 5;

fn main(rt: HostRuntime) -> Result<()> {
    let alloc = rt.alloc();
    let words: Vec<String> = env::args(&rt)?.collect(alloc)?;
    match words.get(1) {
        None => check(&rt, alloc),
        Some(word) => run(&rt, alloc, word.as_str(), number_of(words.get(2))?),
    }
}

// How many messages or polls.
fn number_of(word: Option<&String>) -> Result<u64> {
    match word {
        Some(word) => Ok(word.parse()?),
        None => Ok(1_000_000),
    }
}

// What the first word asks for.
fn run<R: Wait + Clock + Print>(rt: &R, alloc: Global, word: &str, number: u64) -> Result<()> {
    match word {
        "measure" => measure_all(rt, alloc, number),
        "singly" => send_once(rt, alloc, number, 1),
        "runs" => send_once(rt, alloc, number, 8),
        "idle" => poll_idle(rt, alloc, number),
        _ => Err(anyhow!("the words are none, or measure, singly, runs or idle, and a number")),
    }
}

// Two light threads send each other so many messages, so many at a time.
fn send_once<R: Wait + Print>(rt: &R, alloc: Global, messages: u64, batch: u32) -> Result<()>
    requires { (1 ≤ batch) × (batch ≤ 8) }
{
    let sent = polled::volleys(rt, alloc, messages / 2 / u64::from(batch), batch)?;
    println!(rt; "sent {sent}")?;
    Ok(())
}

// So many polls find nothing.
fn poll_idle<R: Wait + Print>(rt: &R, alloc: Global, polls: u64) -> Result<()> {
    let mut threads = polled::idle_threads(alloc)?;
    let worked = polled::idle_polls(rt, threads.as_mut_slice(), polls / 64)?;
    println!(rt; "{worked} of {polls} polls worked")?;
    Ok(())
}

// In each of 100 rounds both send as many messages as were served.
fn check<R: Wait + Print>(rt: &R, alloc: Global) -> Result<()> {
    let singly = polled::volleys(rt, alloc, 100, 1)?;
    let in_runs = polled::volleys(rt, alloc, 100, 8)?;
    let mut threads = polled::idle_threads(alloc)?;
    let worked = polled::idle_polls(rt, threads.as_mut_slice(), 10)?;
    println!(rt;
        "sent {singly} singly and {in_runs} in runs, and {worked} of 640 polls of nothing worked"
    )?;
    Ok(())
}

// Prints a line for each case.
fn measure_all<R: Wait + Clock + Print>(rt: &R, alloc: Global, messages: u64) -> Result<()> {
    println!(rt; "best of {RUNS} runs of {messages} messages, in messages per second")?;
    measure(rt, alloc, messages, 1)?;
    measure(rt, alloc, messages, 8)?;
    measure_idle(rt, alloc, messages)
}

// Two light threads beside a ring alone, with so many messages at a time.
fn measure<R: Wait + Clock + Print>(rt: &R, alloc: Global, messages: u64, batch: u32) -> Result<()>
    requires { (1 ≤ batch) × (batch ≤ 8) }
{
    let (mut threads, mut ring) = (0, 0);
    for _ in 0..RUNS {
        let start = Instant::now(rt)?;
        let sent = polled::volleys(rt, alloc, messages / 2 / u64::from(batch), batch)?;
        threads = cmp::max(threads, per_second(rt, start, sent)?);
        let start = Instant::now(rt)?;
        let taken = bare::bare(rt, alloc, messages / u64::from(batch), batch as usize)?;
        ring = cmp::max(ring, per_second(rt, start, taken)?);
    }
    let ratio = threads.saturating_mul(100) / cmp::max(ring, 1);
    let (whole, part) = (ratio / 100, ratio % 100);
    println!(rt;
        "{batch} at a time: threads {threads:>10}  ring {ring:>10}  ratio {whole}.{part:02}"
    )?;
    Ok(())
}

// Polls of 64 threads that have nothing to do.
fn measure_idle<R: Wait + Clock + Print>(rt: &R, alloc: Global, polls: u64) -> Result<()> {
    let mut best = u64::MAX;
    for _ in 0..RUNS {
        let mut threads = polled::idle_threads(alloc)?;
        let start = Instant::now(rt)?;
        let _worked = polled::idle_polls(rt, threads.as_mut_slice(), polls / 64)?;
        let spent = u64::try_from(start.elapsed(rt)?.as_nanos()).unwrap_or(u64::MAX);
        best = cmp::min(best, spent / cmp::max(polls, 1));
    }
    println!(rt; "a poll of nothing, among 64 threads: {best} ns")?;
    Ok(())
}

// How many messages a second it were, had they begun at `start`.
fn per_second<R: Clock>(rt: &R, start: Instant, messages: u64) -> Result<u64> {
    let spent = start.elapsed(rt)?.as_micros();
    let micros = cmp::max(u64::try_from(spent).unwrap_or(u64::MAX), 1);
    Ok(messages.saturating_mul(1_000_000) / micros)
}
