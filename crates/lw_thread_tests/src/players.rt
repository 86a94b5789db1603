//! A body for the tests.
ghost use Rattle.std.specs.Prelude.{◌≡◌};

use crate::plays::{Plan, act};
use lw_base::{NoMemory, Tag, Tagged, Tick, What};
use lw_poller::PollerId;
use lw_thread::{Acts, Body, Work};
use std::alloc::{AllocError, Global};
use std::sync::Wait;

/// A message that carries a number.
#[derive(Clone, Copy)]
pub struct Note {
    pub tag: Tag,
    pub value: u32,
}

impl Tagged for Note {
    ghost use Rattle.std.specs.Prelude.{refl};
    ghost use Rattle.lw_thread_tests.specs.declared.players.Note.{Note};

    type Letter = Note;

    type Family = ();

    ghost letter = { λ n. n };

    ghost tag_of = { λ n. n.tag };

    ghost fits = { λ _ _ _. Unit {0} };

    ghost marked = { λ n s k. record n { tag = record n.tag { sender = s; number = k } } };

    ghost marked_tag = { λ n s k. refl };

    ghost marked_last = { λ n s k t j. refl };

    ghost marked_same = { λ n. refl };

    fn tag(&self) -> Tag {
        self.tag
    }

    fn mark(&mut self, sender: u32, number: u64) {
        self.tag.sender = sender;
        self.tag.number = number;
    }
}

/// A note that isn't sent yet.
pub fn note_of(value: u32) -> Note
    ensures sender { result.tag.sender ≡ 0 }
    ensures blank { result ≡ record result { tag = record result.tag { sender = 0; number = 0 } } }
{
    let tag = Tag {
        sender: 0,
        number: 0,
        what: What::Request { op: value },
    };
    Note { tag, value }
}

/// The body of the tests' threads. It asks to end when it runs the note of value `last`.
#[derive(Drop)]
pub struct Player {
    pub plan: Plan,
    pub last: u32,
    /// Whether it may not end before the note of value `last` was run.
    pub waits: bool,
    /// The values that came, and those that came back.
    pub heard: Vec<u32>,
    pub back: Vec<u32>,
    /// The pollers that were called.
    pub called: Vec<u32>,
}

impl Body for Player {
    ghost use Rattle.std.specs.Prelude.{◌≡◌, not, Some};

    type Message = Note;

    ghost lawful = { λ k a b. k.family ≡ Some tt };

    ghost ends = { λ b. not b.waits };

    ghost runs = { λ x now s t. Unit {0} };

    ghost ticks = { λ p now w s t. Unit {0} };

    ghost takes_back = { λ to x s t. Unit {0} };

    ghost sending = { λ k live to x rest body within h. h };

    #[tactic(auto, using(crate::proofs::Fitting::notes_fit, lw_thread::proofs::Adding::adds_none, lw_thread::proofs::Adding::adds_end))]
    fn run<R: Wait>(
        &mut self,
        _rt: &R,
        message: Note,
        _now: Tick,
        acts: &mut Acts<Note>,
    ) -> Result<(), NoMemory> {
        if matches!(self.plan, Plan::Fail) {
            return Err(AllocError);
        }
        self.heard.push(message.value)?;
        if message.value != self.last {
            return Ok(());
        }
        self.waits = false;
        acts.ask_end();
        Ok(())
    }

    #[tactic(auto, using(crate::proofs::Fitting::notes_fit))]
    fn tick<R: Wait>(
        &mut self,
        _rt: &R,
        poller: PollerId,
        now: Tick,
        acts: &mut Acts<Note>,
    ) -> Result<Work, NoMemory> {
        self.called.push(poller.0)?;
        act(self.plan, self.called.len(), poller, now, acts)
    }

    #[tactic(auto, using(crate::proofs::Fitting::notes_fit, lw_thread::proofs::Adding::adds_send, lw_thread::proofs::Adding::adds_none))]
    fn returned<R: Wait>(
        &mut self,
        _rt: &R,
        _to: u32,
        message: Note,
        acts: &mut Acts<Note>,
    ) -> Result<(), NoMemory> {
        self.back.push(message.value)?;
        if acts.threads() == 0 {
            return Ok(());
        }
        acts.send(0, note_of(100))
    }

    fn may_end(&self) -> bool {
        !self.waits
    }
}

/// A player that nothing came to.
pub fn player_of(alloc: Global, plan: Plan, last: u32) -> Player {
    Player {
        plan,
        last,
        waits: false,
        heard: Vec::new(alloc),
        back: Vec::new(alloc),
        called: Vec::new(alloc),
    }
}
