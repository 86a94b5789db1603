//! Flags by number.
ghost use Rattle.std.specs.Prelude.{◌≡◌, ◌<◌, ◌^◌, ◌==◌, slice_index_or, slice_set, replicate, length, true, false, IfOk};
ghost use Rattle.lw_app.specs.Flags.{how_many};

use lw_base::NoMemory;
use std::alloc::Global;
use std::marker::Model;

/// Flags by number, from 0, fewer than 2^32. Contracts see them as a list. How many are set is kept beside them, so that nobody looks through all.
#[derive(Drop)]
pub struct Flags {
    flags: Vec<bool>,
    count: u32,
}

impl Model for Flags {
    ghost use Rattle.std.specs.Prelude.{◌≡◌, ◌<◌, ◌^◌, List, Bool, length};
    ghost use Rattle.lw_app.specs.Flags.{how_many};

    ghost Value = { List Bool };

    ghost view = { λ f. f.flags.items };

    ghost invariant = { λ f. (f.count ≡ how_many f.flags.items) × (length f.flags.items < 2 ^ 32) };
}

impl Flags {
    /// So many flags, none of which is set.
    pub fn none(alloc: Global, flags: u32) -> Result<Flags, NoMemory>
        ensures { IfOk result (λ f. f ≡ replicate flags false) }
    {
        Ok(Flags {
            flags: vec![in alloc; false; flags as usize]?,
            count: 0,
        })
    }

    /// So many flags, all of which are set.
    pub fn all(alloc: Global, flags: u32) -> Result<Flags, NoMemory>
        ensures { IfOk result (λ f. f ≡ replicate flags true) }
    {
        Ok(Flags {
            flags: vec![in alloc; true; flags as usize]?,
            count: flags,
        })
    }

    /// How many flags there are.
    pub fn len(&self) -> u32
        ensures { result ≡ length self.now }
    {
        self.flags.len() as u32
    }

    /// Whether no flag is set.
    pub fn is_empty(&self) -> bool
        ensures { result ≡ (how_many self.now == 0) }
    {
        self.count == 0
    }

    /// Whether the flag with this number is set. A flag that isn't there is not.
    pub fn has(&self, number: u32) -> bool
        ensures { result ≡ slice_index_or self.now number false }
    {
        match self.flags.get(number as usize) {
            Some(flag) => *flag,
            None => false,
        }
    }

    /// Sets a flag that isn't set.
    pub fn set(&mut self, number: u32)
        requires there { number < length self.old }
        requires unset { slice_index_or self.old number false ≡ false }
        ensures { self.new ≡ slice_set self.old number true }
    {
        self.flags[number as usize] = true;
        self.count += 1;
    }

    /// Clears a flag that is set.
    pub fn clear(&mut self, number: u32)
        requires { slice_index_or self.old number false ≡ true }
        ensures { self.new ≡ slice_set self.old number false }
    {
        self.flags[number as usize] = false;
        self.count -= 1;
    }
}
