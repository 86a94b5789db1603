//! Pollers are added.
ghost use Rattle.std.specs.Prelude.{◌≡◌, ◌+◌, ◌<◌, ◌≤◌, IsTrue, IfOk, IfErr, OnErr, vec_len, vec_capacity};
ghost use Rattle.lw_poller.specs.Changes.{IsLeastFree, IsNotAdded, AddsTimed, with_active};

use crate::names::{PollerId, PollerRefusal};
use crate::places::queue;
use crate::poller::{Active, Resting, Timed};
use crate::set::PollerSet;
use lw_base::Tick;

impl PollerSet {
    /// Adds an active poller. The next poll is the first that calls it.
    ///
    /// Its number is the least that is free. Refusals: `Full` exactly at 64 live pollers, and else `NoMemory`.
    pub fn add_active(&mut self) -> Result<PollerId, PollerRefusal>
        ensures number { IfOk result (λ id. IsLeastFree self.old id.0) }
        ensures added { IfOk result (λ id. self.new ≡ with_active id.0 self.old) }
        ensures cause { IfErr result (λ e. IsNotAdded self.old e) }
        ensures same { OnErr result (self.new ≡ self.old) }
    {
        let Some(number) = self.live.least_free() else {
            return Err(PollerRefusal::Full);
        };
        let poller = Active {
            number,
            paused: false,
        };
        if self.active.push(poller).is_err() {
            return Err(PollerRefusal::NoMemory);
        }
        self.live = self.live.with(number);
        Ok(PollerId(number))
    }

    /// Adds a timed poller, of a period of at least 1. It is due at `now + period`, at most the greatest u64, and the next
    /// poll is the first that may call it.
    ///
    /// Its number is the least that is free. Refusals: `Full` exactly at 64 live pollers, and else `NoMemory`.
    pub fn add_timed(&mut self, now: Tick, period: Tick) -> Result<PollerId, PollerRefusal>
        requires { 1 ≤ period }
        ensures number { IfOk result (λ id. IsLeastFree self.old id.0) }
        ensures added { IfOk result (λ id. AddsTimed id.0 now period self.old self.new) }
        ensures cause { IfErr result (λ e. IsNotAdded self.old e) }
        ensures same { OnErr result (self.new ≡ self.old) }
    {
        let Some(number) = self.live.least_free() else {
            return Err(PollerRefusal::Full);
        };
        if !make_room(&mut self.timed, &mut self.resting) {
            return Err(PollerRefusal::NoMemory);
        }
        let poller = Timed {
            number,
            period,
            due: now.saturating_add(period),
        };
        queue(&mut self.timed, poller);
        self.live = self.live.with(number);
        self.over = self.over.with(number);
        Ok(PollerId(number))
    }
}

// Whether both lists have room for all that stand in either, and one more.
fn make_room(timed: &mut Vec<Timed>, resting: &mut Vec<Resting>) -> bool
    ensures items { (timed.new.items ≡ timed.old.items) × (resting.new.items ≡ resting.old.items) }
    ensures timed { IsTrue result → vec_len timed.old + vec_len resting.old + 1 ≤ vec_capacity timed.new }
    ensures resting { IsTrue result → vec_len timed.old + vec_len resting.old + 1 ≤ vec_capacity resting.new }
    ensures capacity { (vec_capacity timed.old ≤ vec_capacity timed.new) × (vec_capacity resting.old ≤ vec_capacity resting.new) }
{
    let others = timed.len() + 1;
    timed.reserve(resting.len() + 1).is_ok() && resting.reserve(others).is_ok()
}
