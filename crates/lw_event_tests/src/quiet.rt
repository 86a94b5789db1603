//! A body that does nothing, for runs of which the events alone matter.
use lw_base::{NoMemory, Tag, Tagged, Tick, What};
use lw_poller::PollerId;
use lw_thread::{Acts, Body, Work};
use std::sync::Wait;

/// A message that is nothing but a tag.
#[derive(Clone, Copy, PartialEq, Eq, Debug)]
pub struct Note {
    tag: Tag,
}

impl Tagged for Note {
    ghost use Rattle.std.specs.Prelude.{refl};
    ghost use Rattle.lw_event_tests.specs.declared.quiet.Note.{Note};

    type Letter = Note;

    type Family = ();

    ghost letter = { λ n. n };

    ghost tag_of = { λ n. n.tag };

    ghost fits = { λ _ _ _. Unit {0} };

    ghost marked = { λ n s k. record n { tag = record n.tag { sender = s; number = k } } };

    ghost marked_tag = { λ n s k. refl };

    ghost marked_last = { λ n s k t j. refl };

    ghost marked_same = { λ n. refl };

    fn tag(&self) -> Tag {
        self.tag
    }

    fn mark(&mut self, sender: u32, number: u64) {
        self.tag.sender = sender;
        self.tag.number = number;
    }
}

/// Runs what comes, and sends nothing.
#[derive(Drop)]
pub struct Quiet;

impl Body for Quiet {
    ghost use Rattle.std.specs.Prelude.{true};

    type Message = Note;

    ghost lawful = { λ k a b. Unit {0} };

    ghost ends = { λ b. true };

    ghost runs = { λ x now s t. Unit {0} };

    ghost ticks = { λ p now w s t. Unit {0} };

    ghost takes_back = { λ to x s t. Unit {0} };

    ghost sending = { λ k live to x rest body within h. tt };

    #[tactic(auto, using(lw_thread::proofs::Adding::adds_none))]
    fn run<R: Wait>(
        &mut self,
        _rt: &R,
        _message: Note,
        _now: Tick,
        _acts: &mut Acts<Note>,
    ) -> Result<(), NoMemory> {
        Ok(())
    }

    #[tactic(auto, using(lw_thread::proofs::Adding::adds_none))]
    fn tick<R: Wait>(
        &mut self,
        _rt: &R,
        _poller: PollerId,
        _now: Tick,
        _acts: &mut Acts<Note>,
    ) -> Result<Work, NoMemory> {
        Ok(Work::Idle)
    }

    #[tactic(auto, using(lw_thread::proofs::Adding::adds_none))]
    fn returned<R: Wait>(
        &mut self,
        _rt: &R,
        _to: u32,
        _message: Note,
        _acts: &mut Acts<Note>,
    ) -> Result<(), NoMemory> {
        Ok(())
    }

    fn may_end(&self) -> bool {
        true
    }
}
