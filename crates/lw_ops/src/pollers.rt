//! The calls of pollers that can't be refused.
ghost use Rattle.std.specs.Prelude.{◌≡◌, ◌≤◌, IfOk};
ghost use Rattle.lw_poller.specs.Changes.{IsLeastFree, AddsTimed, Pauses, Resumes, Removes};
ghost use Rattle.lw_poller.specs.Pollers.{times};
ghost use Rattle.lw_ops.specs.Free.{HasFree};

use lw_base::{NoMemory, Tick};
use lw_mail::Mail;
use lw_poller::{PollerId, PollerRefusal};
use lw_thread::Acts;
use std::alloc::AllocError;

/// Adds a timed poller, for which a number is free, and answers its number.
pub fn add_timer(acts: &mut Acts<Mail>, ticks: u64, now: Tick) -> Result<u32, NoMemory>
    requires ticks { 1 ≤ ticks }
    requires free { HasFree acts.old.pollers }
    ensures number { IfOk result (λ n. IsLeastFree acts.old.pollers n) }
    ensures added { IfOk result (λ n. AddsTimed n now ticks acts.old.pollers acts.new.pollers) }
    ensures rest { acts.new ≡ record acts.old { pollers = acts.new.pollers } }
{
    match acts.add_timed(now, ticks) {
        Ok(poller) => Ok(poller.0),
        Err(PollerRefusal::NoMemory) => Err(AllocError),
        Err(_) => unreachable!(),
    }
}

/// Pauses a poller, which is live.
pub fn pause(acts: &mut Acts<Mail>, poller: u32)
    requires { 1 ≤ times poller acts.old.pollers }
    ensures paused { Pauses poller acts.old.pollers acts.new.pollers }
    ensures rest { acts.new ≡ record acts.old { pollers = acts.new.pollers } }
{
    if acts.pause(PollerId(poller)).is_err() {
        unreachable!()
    }
}

/// Resumes a poller, which is live.
pub fn resume(acts: &mut Acts<Mail>, poller: u32, now: Tick)
    requires { 1 ≤ times poller acts.old.pollers }
    ensures resumed { Resumes poller now acts.old.pollers acts.new.pollers }
    ensures rest { acts.new ≡ record acts.old { pollers = acts.new.pollers } }
{
    if acts.resume(PollerId(poller), now).is_err() {
        unreachable!()
    }
}

/// Removes a poller, which is live.
pub fn remove(acts: &mut Acts<Mail>, poller: u32)
    requires { 1 ≤ times poller acts.old.pollers }
    ensures removed { Removes poller acts.old.pollers acts.new.pollers }
    ensures rest { acts.new ≡ record acts.old { pollers = acts.new.pollers } }
{
    if acts.remove(PollerId(poller)).is_err() {
        unreachable!()
    }
}
