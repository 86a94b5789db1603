//! A list of states that knows how many of them have each key.
ghost use Rattle.std.specs.Prelude.{◌≡◌, ◌<◌, ◌≤◌, ◌+◌, ◌-◌, ◌++◌, ◌∷◌, [], IfOk, length, slice_get, slice_set, slice_index};
ghost use Rattle.lw_world.specs.Register.{keyed};

use crate::tally::zeros;
use lw_base::NoMemory;
use std::alloc::{AllocError, Global};
use std::marker::Model;

/// A state with a key by which it is counted.
pub trait Keyed: Copy {
    ghost use Rattle.std.specs.Prelude.{ℕ};

    ghost key: { Self → ℕ };

    fn key(self) -> usize
        ensures { result ≡ key self };
}

/// At most 81 states.
#[derive(Drop)]
pub struct Register<S: Keyed> {
    states: Vec<S>,
    counts: Vec<u64>,
}

impl<S: Keyed> Model for Register<S> {
    ghost use Rattle.std.specs.Prelude.{length};
    ghost use Rattle.lw_world.specs.Register.{Registered, IsRegistered};

    ghost Value = { Registered S };

    ghost view = { λ a. record { states = a.states.items; keys = length a.counts.items } };

    ghost invariant = { λ a. IsRegistered S.key a.states.items a.counts.items };
}

impl<S: Keyed> Register<S> {
    /// No state yet, and the keys below `keys`.
    pub fn new(alloc: Global, keys: usize) -> Result<Register<S>, NoMemory>
        ensures { IfOk result (λ r. r ≡ record { states = []; keys = keys }) }
    {
        let counts = zeros(alloc, keys)?;
        Ok(Register {
            states: Vec::new(alloc),
            counts,
        })
    }

    /// One more state, behind the others.
    pub fn push(&mut self, state: S) -> Result<(), NoMemory>
        requires few { length self.old.states < 81 }
        requires key { S.key state < self.old.keys }
        ensures { IfOk result (λ u. self.new ≡ record self.old { states = self.old.states ++ state ∷ [] }) }
    {
        self.states.push(state)?;
        more(&mut self.counts, state.key());
        Ok(())
    }

    /// The state in this place.
    pub fn get(&self, place: u32) -> S
        requires { place < length self.now.states }
        ensures { slice_get self.now.states place ≡ Some result }
    {
        self.states[place as usize]
    }

    /// How many states have this key.
    pub fn count(&self, key: usize) -> u64
        requires { key < self.now.keys }
        ensures { result ≡ keyed S.key key self.now.states }
    {
        self.counts[key]
    }

    /// Changes one state.
    pub fn set(&mut self, place: u32, state: S)
        requires place { place < length self.old.states }
        requires key { S.key state < self.old.keys }
        ensures { self.new ≡ record self.old { states = slice_set self.old.states place state } }
    {
        let before = self.states[place as usize].key();
        let after = state.key();
        self.states[place as usize] = state;
        fewer(&mut self.counts, before);
        more(&mut self.counts, after);
    }
}

fn fewer(counts: &mut Vec<u64>, key: usize)
    requires key { key < length counts.old.items }
    requires some { 0 < slice_index counts.old.items key }
    ensures { counts.new.items ≡ slice_set counts.old.items key (slice_index counts.old.items key - 1) }
{
    counts[key] -= 1;
}

fn more(counts: &mut Vec<u64>, key: usize)
    requires key { key < length counts.old.items }
    requires few { slice_index counts.old.items key ≤ 81 }
    ensures { counts.new.items ≡ slice_set counts.old.items key (slice_index counts.old.items key + 1) }
{
    counts[key] += 1;
}
