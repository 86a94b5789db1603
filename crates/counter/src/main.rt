//! A light thread that counts, as an example of a body: it sends itself a message for each number, runs what comes, and ends.
//!
//! Prints how far it counted, how many messages it ran and in how many polls.
#![tactic(auto)]

mod body;
mod making;
mod note;
mod running;

use anyhow::{Result, anyhow};

/// How far the thread counts.
const GOAL: u32 = 20;

fn main(rt: HostRuntime) -> Result<()> {
    let thread = making::counting(rt.alloc(), GOAL)?;
    match running::run_to_end(&rt, thread)? {
        Some(run) => {
            println!(rt;
                "counted {} in {} messages and {} polls",
                run.count, run.messages, run.polls
            )?;
            Ok(())
        }
        None => Err(anyhow!("the thread did not end")),
    }
}
