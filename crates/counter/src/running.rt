//! Polls of the counting thread.
ghost use Rattle.std.specs.Prelude.{◌≡◌, false};
ghost use Rattle.lw_place.specs.PlaceSeats.{IsList};

use crate::body::Counter;
use anyhow::Result;
use lw_thread::{Ending, LightThread};
use std::sync::Wait;

/// How far a thread counted that has ended, how many messages it ran, and in how many polls.
#[derive(Drop)]
pub struct Run {
    pub count: u32,
    pub messages: usize,
    pub polls: u32,
}

/// The most polls that a thread gets.
const MOST_POLLS: u32 = 1_000;

/// Polls the thread until it has ended, but not without end.
#[tactic(auto, using(lw_thread::proofs::Waiting::still_listed, lw_thread::proofs::Waiting::still_going))]
pub fn run_to_end<R: Wait>(rt: &R, thread: LightThread<Counter>) -> Result<Option<Run>>
    requires { IsList thread.seat.place × (thread.stopped ≡ false) }
{
    let mut thread = thread;
    for polls in 1..=MOST_POLLS {
        let _polled = thread.poll(rt, u64::from(polls))?;
        thread = match thread.try_end() {
            Ending::Ended(remains) => {
                let parts = remains.open();
                return Ok(Some(Run {
                    count: parts.body.count,
                    messages: parts.ran.len(),
                    polls,
                }));
            }
            Ending::NotYet(thread, _why) => thread,
        };
    }
    Ok(None)
}
