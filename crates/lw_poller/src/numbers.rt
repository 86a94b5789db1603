//! Sets of numbers below 64.
ghost use Rattle.std.specs.Prelude.{◌≡◌, ℕ, ◌^◌, ◌<◌, ◌↔◌, IsTrue, IfSome, IfNone};
ghost use Rattle.std.specs.Int.{bit_at};
ghost use Rattle.lw_poller.specs.Numbers.{most_pollers, Has, Lacks, IsWith, IsWithout};

/// A set of numbers below 64, as a word: a number is in the set where its bit is 1.
#[derive(Clone, Copy)]
pub struct Numbers {
    pub(crate) word: u64,
}

impl Numbers {
    // No number.
    pub(crate) const fn none() -> Numbers
        ensures { result.word ≡ 0 }
    {
        Numbers { word: 0 }
    }

    // Whether the number is in the set.
    pub(crate) fn has(self, number: u32) -> bool
        requires { number < most_pollers }
        ensures { IsTrue result ↔ Has self.word number }
    {
        self.word & (1 << number) != 0
    }

    // The set and this number.
    pub(crate) fn with(self, number: u32) -> Numbers
        requires { number < most_pollers }
        ensures is { IsWith number self.word result.word }
        ensures fits { result.word < 2 ^ 64 }
    {
        Numbers {
            word: self.word | (1 << number),
        }
    }

    // The set without this number.
    pub(crate) fn without(self, number: u32) -> Numbers
        requires { number < most_pollers }
        ensures is { IsWithout number self.word result.word }
        ensures fits { result.word < 2 ^ 64 }
    {
        Numbers {
            word: self.word & !(1 << number),
        }
    }

    // The least number below 64 that isn't in the set.
    pub(crate) fn least_free(self) -> Option<u32>
        ensures found { IfSome result (λ n. (n < most_pollers) × Lacks self.word n × ((k : ℕ) → k < n → Has self.word k)) }
        ensures none { IfNone result ((k : ℕ) → k < most_pollers → Has self.word k) }
    {
        if self.word == u64::MAX {
            None
        } else {
            Some(self.word.trailing_ones())
        }
    }
}
