//! The token of a cast: a for-each over all threads.
ghost use Rattle.std.specs.Prelude.{◌≡◌, ℕ, ◌+◌, ◌<◌, ◌≤◌, [], ◌∷◌, IfOk};
ghost use Rattle.lw_visit.specs.Tokens.{Cast, AscendBelow, new_cast, cast_passed};

use crate::next::{Next, onward};
use lw_base::NoMemory;
use std::alloc::Global;
use std::marker::Model;

/// The token of a cast.
///
/// Contracts see who began it, for which op; how many threads there are, and to which the token goes; and the threads that
/// ran it so far. A token that is complete goes to no thread: its `goes_to` is the number of threads.
#[derive(Drop)]
pub struct CastToken {
    origin: u32,
    op: u32,
    threads: u32,
    goes_to: u32,
    ran: Vec<u32>,
}

impl Model for CastToken {
    ghost use Rattle.std.specs.Prelude.{◌≤◌, vec_capacity, vec_len};
    ghost use Rattle.lw_visit.specs.Tokens.{Cast, AscendBelow};

    ghost Value = { Cast };

    ghost view = { λ t. record {
      origin = t.origin;
      op = t.op;
      threads = t.threads;
      goes_to = t.goes_to;
      ran = t.ran.items;
    } };

    ghost invariant = { λ t.
        AscendBelow t.goes_to t.ran.items
        × (vec_len t.ran ≤ t.goes_to)
        × (t.goes_to ≤ t.threads)
        × (t.threads ≤ vec_capacity t.ran) };
}

impl CastToken {
    /// The number of the thread that began the cast, to which the token comes back.
    pub fn origin(&self) -> u32
        ensures { result ≡ self.now.origin }
    {
        self.origin
    }

    /// The number of the op for which it began.
    pub fn op(&self) -> u32
        ensures { result ≡ self.now.op }
    {
        self.op
    }

    /// The step of the thread `here`, to which the token goes: it adds its number. The token then goes to the next thread, or
    /// is complete exactly at the last.
    pub fn step(mut self, here: u32) -> Next<CastToken>
        requires { (here ≡ self.goes_to) × (here < self.threads) }
        ensures to { (n : ℕ) (token : Cast) → result ≡ Next.To n token →
            (n ≡ here + 1) × (n < self.threads) × (token ≡ cast_passed (here ∷ []) self) }
        ensures complete { (token : Cast) → result ≡ Next.Complete token →
            (here + 1 ≡ self.threads) × (token ≡ cast_passed (here ∷ []) self) }
    {
        let threads = self.threads;
        self.goes_to = here + 1;
        self.ran.push_reserved(here);
        onward(self, here + 1, threads)
    }

    /// The token goes past the thread `past`, which runs it no more: nothing is added. Whoever holds the token may do this.
    pub fn skip(mut self, past: u32) -> Next<CastToken>
        requires { (past ≡ self.goes_to) × (past < self.threads) }
        ensures to { (n : ℕ) (token : Cast) → result ≡ Next.To n token →
            (n ≡ past + 1) × (n < self.threads) × (token ≡ cast_passed [] self) }
        ensures complete { (token : Cast) → result ≡ Next.Complete token →
            (past + 1 ≡ self.threads) × (token ≡ cast_passed [] self) }
    {
        let threads = self.threads;
        self.goes_to = past + 1;
        onward(self, past + 1, threads)
    }

    /// The threads that ran the token so far, of a complete one all: in ascending order, each once at most.
    pub fn results(self) -> Vec<u32>
        ensures ran { result.items ≡ self.ran }
        ensures ascending { AscendBelow self.goes_to result.items }
    {
        let CastToken { ran, .. } = self;
        ran
    }
}

/// Makes the token of a cast over at least one thread, which goes to thread 0. Room for all results is taken.
pub fn start_cast(alloc: Global, origin: u32, op: u32, threads: u32) -> Result<CastToken, NoMemory>
    requires { 1 ≤ threads }
    ensures { IfOk result (λ token. token ≡ new_cast origin op threads) }
{
    Ok(CastToken {
        origin,
        op,
        threads,
        goes_to: 0,
        ran: Vec::with_capacity(alloc, threads as usize)?,
    })
}
