//! What the tests' bodies do in the ticks of their pollers.
ghost use Rattle.std.specs.Prelude.{◌≤◌, OnOk};
ghost use Rattle.lw_thread.specs.Calls.{Adds};

use crate::players::{Note, note_of};
use lw_base::{NoMemory, Tick};
use lw_poller::{PollerId, PollerRefusal};
use lw_thread::{Acts, Work};
use std::cmp;

/// What a player's poller does. The first four remove themselves and ask for the end.
#[derive(Clone, Copy, Drop)]
pub enum Plan {
    /// It sends notes 0, 1, .. below `count` to thread 1.
    Speak { count: u32 },
    /// It sends note 7 to thread 0, notes 8 and 9 to thread 1 and note 10 to thread 0.
    Mix,
    /// It sends notes 7 to 12 to threads 0, 1, 2, 2, 1 and 0.
    Spread,
    /// It does nothing more.
    Rest,
    /// It starts threads 1, 0 and 1, in each tick, and is idle.
    Start,
    /// It adds, pauses, resumes and removes pollers, its own among them, by its number and the time.
    Juggle,
    /// It adds two timed pollers in its tick, which remove themselves in their third and second one, and goes.
    Late,
    /// It is idle, and finds no memory to run a message.
    Fail,
}

/// What the poller of this number does at this time, which is the so manieth call of a poller.
pub fn act(
    plan: Plan,
    calls: usize,
    poller: PollerId,
    now: Tick,
    acts: &mut Acts<Note>,
) -> Result<Work, NoMemory>
    ensures { OnOk result (Adds acts.old acts.new) }
{
    match plan {
        Plan::Start => start_all(acts),
        Plan::Juggle => Ok(change_all(juggled(poller.0, now), now, acts)),
        Plan::Late => Ok(change_all(late(poller.0, calls), now, acts)),
        Plan::Fail => Ok(idle(acts)),
        _ => play(plan, poller, acts),
    }
}

#[tactic(auto, using(lw_thread::proofs::Adding::adds_none))]
fn idle(_acts: &mut Acts<Note>) -> Work
    ensures { Adds _acts.old _acts.new }
{
    Work::Idle
}

// Makes the sends of a plan, and goes.
#[tactic(auto, using(lw_thread::proofs::Adding::adds_both))]
fn play(plan: Plan, poller: PollerId, acts: &mut Acts<Note>) -> Result<Work, NoMemory>
    ensures { OnOk result (Adds acts.old acts.new) }
{
    send_of(plan, acts)?;
    leave(poller, acts);
    Ok(Work::Busy)
}

#[tactic(auto, using(lw_thread::proofs::Adding::adds_remove, lw_thread::proofs::Adding::adds_end, lw_thread::proofs::Adding::adds_both))]
fn leave(poller: PollerId, acts: &mut Acts<Note>)
    ensures { Adds acts.old acts.new }
{
    let _gone = acts.remove(poller);
    acts.ask_end();
}

#[tactic(auto, using(lw_thread::proofs::Adding::adds_none))]
fn send_of(plan: Plan, acts: &mut Acts<Note>) -> Result<(), NoMemory>
    ensures { OnOk result (Adds acts.old acts.new) }
{
    match plan {
        Plan::Speak { count } => speak(count, acts),
        Plan::Mix => send_all(&[(0, 7), (1, 8), (1, 9), (0, 10)], acts),
        Plan::Spread => send_all(&[(0, 7), (1, 8), (2, 9), (2, 10), (1, 11), (0, 12)], acts),
        _ => Ok(()),
    }
}

// Sends so many notes to thread 1.
#[tactic(auto, using(lw_thread::proofs::Adding::adds_both, lw_thread::proofs::Adding::adds_none))]
fn speak(count: u32, acts: &mut Acts<Note>) -> Result<(), NoMemory>
    ensures { OnOk result (Adds acts.old acts.new) }
{
    for value in 0..count {
        send(1, value, acts)?;
    }
    Ok(())
}

// Sends notes: to whom, and of which value.
#[tactic(auto, using(lw_thread::proofs::Adding::adds_both, lw_thread::proofs::Adding::adds_none))]
fn send_all(sends: &[(u32, u32)], acts: &mut Acts<Note>) -> Result<(), NoMemory>
    ensures { OnOk result (Adds acts.old acts.new) }
{
    for (to, value) in sends {
        send(*to, *value, acts)?;
    }
    Ok(())
}

// Sends a note, if there is such a thread.
#[tactic(auto, using(lw_thread::proofs::Adding::adds_send, lw_thread::proofs::Adding::adds_none))]
fn send(to: u32, value: u32, acts: &mut Acts<Note>) -> Result<(), NoMemory>
    ensures { OnOk result (Adds acts.old acts.new) }
{
    if to >= acts.threads() {
        return Ok(());
    }
    acts.send(to, note_of(value))
}

// Starts threads 1, 0 and 1.
#[tactic(auto, using(lw_thread::proofs::Adding::adds_both, lw_thread::proofs::Adding::adds_none))]
fn start_all(acts: &mut Acts<Note>) -> Result<Work, NoMemory>
    ensures { OnOk result (Adds acts.old acts.new) }
{
    let threads = [1, 0, 1];
    for thread in threads.as_slice() {
        start(*thread, acts)?;
    }
    Ok(Work::Idle)
}

// Starts a thread, if there is such a one.
#[tactic(auto, using(lw_thread::proofs::Adding::adds_start, lw_thread::proofs::Adding::adds_none))]
fn start(thread: u32, acts: &mut Acts<Note>) -> Result<(), NoMemory>
    ensures { OnOk result (Adds acts.old acts.new) }
{
    if thread >= acts.threads() {
        return Ok(());
    }
    acts.start(thread)
}

// A call that changes the pollers, or asks for the end.
#[derive(Clone, Copy, Drop)]
enum Change {
    Nothing,
    Active,
    Timed { period: Tick },
    Pause { number: u32 },
    Resume { number: u32 },
    Remove { number: u32 },
    End,
}

// What pollers 0, 1 and 2 do to each other. Poller 2 is a timed one.
fn juggled(poller: u32, now: Tick) -> [Change; 3] {
    match (poller, now) {
        (0, 0) => [
            Change::Active,
            Change::Timed { period: 10 },
            Change::Pause { number: 0 },
        ],
        (1, 5) => [
            Change::Resume { number: 0 },
            Change::Nothing,
            Change::Nothing,
        ],
        (0, 10) => [
            Change::Remove { number: 1 },
            Change::Pause { number: 2 },
            Change::Nothing,
        ],
        (0, 20) => [
            Change::Resume { number: 2 },
            Change::Active,
            Change::Nothing,
        ],
        (1, 30) => [
            Change::Remove { number: 1 },
            Change::Nothing,
            Change::Nothing,
        ],
        (2, 30) => [
            Change::Remove { number: 2 },
            Change::Remove { number: 0 },
            Change::End,
        ],
        _ => [Change::Nothing, Change::Nothing, Change::Nothing],
    }
}

// What a poller does in the first call of all, in the next three, and in those after them.
fn late(poller: u32, calls: usize) -> [Change; 3] {
    match calls {
        1 => [
            Change::Timed { period: 1 },
            Change::Timed { period: 5 },
            Change::Remove { number: poller },
        ],
        2..=4 => [Change::Nothing, Change::Nothing, Change::Nothing],
        _ => [
            Change::Remove { number: poller },
            Change::End,
            Change::Nothing,
        ],
    }
}

// Makes these calls.
#[tactic(auto, using(lw_thread::proofs::Adding::adds_both, lw_thread::proofs::Adding::adds_none))]
fn change_all(changes: [Change; 3], now: Tick, acts: &mut Acts<Note>) -> Work
    ensures { Adds acts.old acts.new }
{
    for made in changes.as_slice() {
        make_change(*made, now, acts);
    }
    Work::Busy
}

// Adds an active poller.
fn add_active(acts: &mut Acts<Note>) -> Result<PollerId, PollerRefusal>
    ensures { Adds acts.old acts.new }
{
    acts.add_active()
}

// Adds a timed poller.
fn add_timed(now: Tick, period: Tick, acts: &mut Acts<Note>) -> Result<PollerId, PollerRefusal>
    requires { 1 ≤ period }
    ensures { Adds acts.old acts.new }
{
    acts.add_timed(now, period)
}

// Makes one of them.
#[tactic(auto, using(lw_thread::proofs::Adding::adds_none, lw_thread::proofs::Adding::adds_pause, lw_thread::proofs::Adding::adds_resume, lw_thread::proofs::Adding::adds_remove, lw_thread::proofs::Adding::adds_end))]
fn make_change(made: Change, now: Tick, acts: &mut Acts<Note>)
    ensures { Adds acts.old acts.new }
{
    match made {
        Change::Nothing => {}
        Change::Active => {
            let _added = add_active(acts);
        }
        Change::Timed { period } => {
            let _added = add_timed(now, cmp::max(period, 1), acts);
        }
        Change::Pause { number } => {
            let _paused = acts.pause(PollerId(number));
        }
        Change::Resume { number } => {
            let _resumed = acts.resume(PollerId(number), now);
        }
        Change::Remove { number } => {
            let _removed = acts.remove(PollerId(number));
        }
        Change::End => acts.ask_end(),
    }
}
