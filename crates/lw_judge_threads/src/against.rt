//! A list of lines against the wanted ones, as one is wanted after another.
ghost use Rattle.std.specs.Prelude.{◌≡◌, ◌+◌, ◌++◌, ◌<◌, ◌^◌, [], ◌∷◌, Bool, List, length};
ghost use Rattle.lw_judge_threads.specs.AgainstAt.{IsAgainst, unlike_line};

/// How many lines were wanted so far, and the place of the first that isn't the wanted one.
#[derive(Drop)]
pub struct Against {
    wanted: usize,
    unlike: Option<usize>,
}

impl Against {
    /// None was wanted so far.
    pub fn new() -> Self
        ensures { IsAgainst [] result }
    {
        Against {
            wanted: 0,
            unlike: None,
        }
    }

    /// The place of the line that is wanted next.
    pub fn place(&self) -> usize
        ensures { (tests : List Bool) → IsAgainst tests self.now → result ≡ length tests }
    {
        self.wanted
    }

    /// One line more is wanted, which stands at its place or doesn't.
    pub fn want(&mut self, stands: bool)
        ensures { (tests : List Bool) → length tests + 1 < 2 ^ 64 → IsAgainst tests self.old
            → IsAgainst (tests ++ stands ∷ []) self.new }
    {
        if !stands {
            self.unlike = self.unlike.or(Some(self.wanted));
        }
        self.wanted = self.wanted.saturating_add(1);
    }

    /// The first failing line, where so many were found from `first` on: `lack` where there are fewer than were wanted,
    /// else the first that isn't the wanted one or is one too many.
    pub fn line(&self, found: usize, lack: u64, first: u64) -> Option<u64>
        ensures { (tests : List Bool) → IsAgainst tests self.now → first + found < 2 ^ 64
            → result ≡ unlike_line lack first found tests }
    {
        if found < self.wanted {
            return Some(lack);
        }
        let place = match self.unlike {
            Some(place) => place,
            None if self.wanted < found => self.wanted,
            None => return None,
        };
        Some(first.saturating_add(place as u64))
    }
}
