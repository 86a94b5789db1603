//! The outside of a run: where bytes come from and go to, clocks, and a gate that a test can hold.
ghost use Rattle.std.specs.Prelude.{◌≡◌, ◌<◌, ◌≤◌, ◌==◌, false, true, [], ◌∷◌, length, take, IfOk, OnOk, OnErr, IfSome};
ghost use Rattle.lw_base.specs.Outside.{Rose, Continues, HasGiven, HasTaken};

use crate::names::{Failed, Tick};

/// Where bytes come from.
pub trait Source {
    ghost use Rattle.std.specs.Prelude.{ℕ, Bool, List, Option};

    // What is left to read, where the source tells it.
    ghost left: { Self → Option (List ℕ) };

    // Whether a read has answered the end, or has failed. Nobody reads on behind that.
    ghost ended: { Self → Bool };

    // How often it has failed. The count stands still at the greatest u64.
    ghost faults: { Self → ℕ };

    /// Reads the next bytes into the front of `into`, and answers how many: 0 exactly at the end.
    ///
    /// A call that failed has read nothing, and only such a call is counted as a fault. The end, or a fault, is answered
    /// once: a source isn't read behind it.
    fn read(&mut self, into: &mut [u8]) -> Result<usize, Failed>
        requires room { 0 < length into.old }
        requires goes_on { ended self.old ≡ false }
        ensures count { IfOk result (λ n. n ≤ length into.new) }
        ensures ended { IfOk result (λ n. ended self.new ≡ (n == 0)) }
        ensures next { IfOk result (λ n. HasGiven (left self.old) (take n into.new) (left self.new)) }
        ensures end { IfOk result (λ n. n ≡ 0 → IfSome (left self.old) (λ rest. rest ≡ [])) }
        ensures sound { OnOk result (faults self.new ≡ faults self.old) }
        ensures steady { faults self.old ≤ faults self.new }
        ensures failed { OnErr result (Rose (faults self.old) (faults self.new) × (left self.new ≡ left self.old)) }
        ensures stops { OnErr result (ended self.new ≡ true) };
}

/// Where bytes go.
pub trait Sink {
    ghost use Rattle.std.specs.Prelude.{ℕ, List, Option};

    // What it holds, where the sink tells it.
    ghost holds: { Self → Option (List ℕ) };

    // How often it has failed. The count stands still at the greatest u64.
    ghost faults: { Self → ℕ };

    /// Appends the first bytes of `piece`, and answers how many: at least 1.
    ///
    /// A call that failed has appended nothing, and only such a call is counted as a fault.
    fn write(&mut self, piece: &[u8]) -> Result<usize, Failed>
        requires { 0 < length piece.now }
        ensures count { IfOk result (λ n. (1 ≤ n) × (n ≤ length piece.now)) }
        ensures appended { IfOk result (λ n. HasTaken (holds self.old) (take n piece.now) (holds self.new)) }
        ensures sound { OnOk result (faults self.new ≡ faults self.old) }
        ensures steady { faults self.old ≤ faults self.new }
        ensures failed { OnErr result (Rose (faults self.old) (faults self.new) × (holds self.new ≡ holds self.old)) };
}

/// A clock of one reactor. It can't fail, and its readings may be any numbers.
pub trait Clock {
    ghost use Rattle.std.specs.Prelude.{ℕ, List, Option};

    // Its readings so far, where the clock tells them.
    ghost readings: { Self → Option (List ℕ) };

    /// The next reading. A clock that tells its readings after the call told them before it.
    fn now(&mut self) -> Tick
        ensures { Continues (readings self.old) result (readings self.new) };
}

/// What a reactor calls before each of its turns. No clause says what it does: it may wait.
pub trait Gate {
    /// Reactor `reactor` is about to make its turn of this number, counted from 0.
    fn turn(&self, reactor: u32, turn: u64);
}
