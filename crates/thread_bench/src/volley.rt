//! What the light threads do.
ghost use Rattle.std.specs.Prelude.{OnOk};
ghost use Rattle.lw_thread.specs.Calls.{Adds};

use crate::note::Note;
use lw_base::{NoMemory, Tick};
use lw_poller::PollerId;
use lw_thread::{Acts, Body, Work};
use std::sync::Wait;

/// Sends each message that comes on to a thread. In the tick of a poller it sends `serve` messages there, and the poller goes.
#[derive(Drop)]
pub struct Volley {
    pub to: u32,
    pub serve: u32,
}

// Sends so many notes to a thread.
#[tactic(auto, using(lw_thread::proofs::Adding::adds_both, lw_thread::proofs::Adding::adds_none))]
fn send_many(to: u32, count: u32, acts: &mut Acts<Note>) -> Result<(), NoMemory>
    ensures { OnOk result (Adds acts.old acts.new) }
{
    for _ in 0..count {
        send(to, Note::new(0, 0), acts)?;
    }
    Ok(())
}

// Sends a note to a thread, if there is such a one.
#[tactic(auto, using(lw_thread::proofs::Adding::adds_send, lw_thread::proofs::Adding::adds_none))]
fn send(to: u32, note: Note, acts: &mut Acts<Note>) -> Result<(), NoMemory>
    ensures { OnOk result (Adds acts.old acts.new) }
{
    if to >= acts.threads() {
        return Ok(());
    }
    acts.send(to, note)
}

impl Body for Volley {
    ghost use Rattle.std.specs.Prelude.{◌≡◌, true, Some};

    type Message = Note;

    ghost lawful = { λ k a b. k.family ≡ Some tt };

    ghost ends = { λ b. true };

    ghost runs = { λ x now s t. Unit {0} };

    ghost ticks = { λ p now w s t. Unit {0} };

    ghost takes_back = { λ to x s t. Unit {0} };

    ghost sending = { λ k live to x rest body within h. h };

    #[tactic(auto, using(crate::proofs::Fitting::notes_fit))]
    fn run<R: Wait>(
        &mut self,
        _rt: &R,
        message: Note,
        _now: Tick,
        acts: &mut Acts<Note>,
    ) -> Result<(), NoMemory> {
        send(self.to, message, acts)
    }

    #[tactic(auto, using(crate::proofs::Fitting::notes_fit, lw_thread::proofs::Adding::adds_remove, lw_thread::proofs::Adding::adds_both))]
    fn tick<R: Wait>(
        &mut self,
        _rt: &R,
        poller: PollerId,
        _now: Tick,
        acts: &mut Acts<Note>,
    ) -> Result<Work, NoMemory> {
        send_many(self.to, self.serve, acts)?;
        let _gone = acts.remove(poller);
        Ok(Work::Busy)
    }

    #[tactic(auto, using(lw_thread::proofs::Adding::adds_none))]
    fn returned<R: Wait>(
        &mut self,
        _rt: &R,
        _to: u32,
        _message: Note,
        _acts: &mut Acts<Note>,
    ) -> Result<(), NoMemory> {
        Ok(())
    }

    fn may_end(&self) -> bool {
        true
    }
}
