//! What the counting thread does.
ghost use Rattle.std.specs.Prelude.{◌<◌, OnOk};
ghost use Rattle.lw_thread.specs.Calls.{Adds};

use crate::note::Note;
use lw_base::{NoMemory, Tick};
use lw_poller::PollerId;
use lw_thread::{Acts, Body, Work};
use std::sync::Wait;

/// Counts the messages that come, up to a goal, and sends its own thread one for each number that is still to be counted.
#[derive(Drop)]
pub struct Counter {
    pub count: u32,
    pub goal: u32,
}

impl Counter {
    // Sends a message for the next number, or asks for the end where there is none.
    #[tactic(auto, using(lw_thread::proofs::Adding::adds_send, lw_thread::proofs::Adding::adds_end))]
    fn go_on(&self, acts: &mut Acts<Note>) -> Result<(), NoMemory>
        requires { 0 < acts.old.threads }
        ensures adds { OnOk result (Adds acts.old acts.new) }
    {
        if self.count < self.goal {
            return acts.send(0, Note::new());
        }
        acts.ask_end();
        Ok(())
    }
}

impl Body for Counter {
    ghost use Rattle.std.specs.Prelude.{true};
    ghost use Rattle.std.proofs.Common.{◌<◌, length-set, subst, sym};
    ghost use Rattle.counter.specs.Counting.{IsCounting};

    type Message = Note;

    // There is a thread 0 to send to, and its ring has the notes' one family.
    ghost lawful = { λ k a b. IsCounting k };

    ghost ends = { λ b. true };

    ghost runs = { λ x now s t. Unit {0} };

    ghost ticks = { λ p now w s t. Unit {0} };

    ghost takes_back = { λ to x s t. Unit {0} };

    ghost sending = { λ k live to x rest body within h. record {
      a_thread = subst (λ n. 0 < n) (sym (length-set k.sent to _)) h.a_thread;
      family = h.family;
    } };

    // One more is counted.
    #[tactic(auto, using(crate::proofs::Fitting::notes_fit))]
    fn run<R: Wait>(
        &mut self,
        _rt: &R,
        _message: Note,
        _now: Tick,
        acts: &mut Acts<Note>,
    ) -> Result<(), NoMemory> {
        self.count = self.count.saturating_add(1);
        self.go_on(acts)
    }

    // The first call sets the counting going, and takes the poller away.
    #[tactic(auto, using(crate::proofs::Fitting::notes_fit, lw_thread::proofs::Adding::adds_remove, lw_thread::proofs::Adding::adds_both))]
    fn tick<R: Wait>(
        &mut self,
        _rt: &R,
        poller: PollerId,
        _now: Tick,
        acts: &mut Acts<Note>,
    ) -> Result<Work, NoMemory> {
        let _gone = acts.remove(poller);
        self.go_on(acts)?;
        Ok(Work::Busy)
    }

    // A thread that hasn't ended gets what it sends itself, so nothing comes back.
    #[tactic(auto, using(lw_thread::proofs::Adding::adds_none))]
    fn returned<R: Wait>(
        &mut self,
        _rt: &R,
        _to: u32,
        _message: Note,
        _acts: &mut Acts<Note>,
    ) -> Result<(), NoMemory> {
        Ok(())
    }

    fn may_end(&self) -> bool {
        true
    }
}
