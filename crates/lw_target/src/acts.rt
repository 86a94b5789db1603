//! What a machine asks of whoever turns it.
ghost use Rattle.std.specs.Prelude.{◌≡◌, [], ◌∷◌, ◌++◌, OnOk, MatchOption, IfSome};
ghost use Rattle.lw_target.specs.Messages.{IsPrintable};

use crate::mail::Load;
use lw_base::{NoMemory, What};
use std::alloc::Global;
use std::collections::VecDeque;
use std::marker::Model;

/// One send that was asked for.
#[derive(Drop)]
pub struct Outgoing {
    /// The receiving thread.
    pub to: u32,
    pub what: What,
    pub load: Load,
}

/// The sends that a machine asked for, in order, and how many messages its thread had run by then.
#[derive(Drop)]
pub struct Acts {
    ran: u64,
    sends: VecDeque<Outgoing>,
}

impl Model for Acts {
    ghost use Rattle.std.specs.List.{All};
    ghost use Rattle.lw_target.specs.Messages.{Asked, IsPrintable};

    ghost Value = { Asked };

    ghost view = { λ a. record { ran = a.ran; sends = a.sends.items } };

    ghost invariant = { λ a. All (λ s. IsPrintable s.what s.load) a.sends.items };
}

impl Acts {
    pub fn new(alloc: Global) -> Self
        ensures { result ≡ record { ran = 0; sends = [] } }
    {
        Acts {
            ran: 0,
            sends: VecDeque::new(alloc),
        }
    }

    /// Begins a call of a machine whose thread has run this many messages.
    pub fn begin(&mut self, ran: u64)
        ensures { self.new ≡ record { ran = ran; sends = self.old.sends } }
    {
        self.ran = ran;
    }

    /// How many messages the thread had run before this call.
    pub fn ran(&self) -> u64
        ensures { result ≡ self.now.ran }
    {
        self.ran
    }

    /// Asks for a send, behind those asked for before.
    pub fn send(&mut self, to: u32, what: What, load: Load) -> Result<(), NoMemory>
        requires { IsPrintable what load }
        ensures { OnOk result (self.new ≡ record {
          ran = self.old.ran;
          sends = self.old.sends ++ record { to = to; what = what; load = load } ∷ [];
        }) }
    {
        self.sends.push_back(Outgoing { to, what, load })?;
        Ok(())
    }

    /// The next send to be made.
    pub fn next(&mut self) -> Option<Outgoing>
        ensures first { MatchOption result ((self.old.sends ≡ []) × (self.new.sends ≡ [])) (λ s. self.old.sends ≡ s ∷ self.new.sends) }
        ensures printable { IfSome result (λ s. IsPrintable s.what s.load) }
        ensures ran { self.new.ran ≡ self.old.ran }
    {
        self.sends.pop_front()
    }
}
