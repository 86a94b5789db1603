//! A set of pollers.
ghost use Rattle.std.specs.Prelude.{◌≡◌, ℕ, ◌+◌, ◌<◌, ◌≤◌, ◌↔◌, IsTrue, IfOk};
ghost use Rattle.lw_poller.specs.Pollers.{AreKept, live_count, no_pollers};

use crate::numbers::Numbers;
use crate::poller::{Active, Resting, Timed};
use lw_base::{NoMemory, Tick};
use std::alloc::Global;
use std::marker::Model;

/// For how many pollers of a kind a new set has room. Most threads have no more.
const FIRST_ROOM: usize = 2;

/// The pollers of one light thread: 64 at most.
#[derive(Drop)]
pub struct PollerSet {
    /// The numbers of all.
    pub(crate) live: Numbers,
    /// In order of registration.
    pub(crate) active: Vec<Active>,
    /// How many of the active ones had their turn in this poll.
    pub(crate) turn: usize,
    /// How many of them were added before it.
    pub(crate) before: usize,
    /// By due time, and among equal due times in the order in which these were set.
    pub(crate) timed: Vec<Timed>,
    /// The timed ones that are paused.
    pub(crate) resting: Vec<Resting>,
    /// The timed ones that were added in this poll, or given in it.
    pub(crate) over: Numbers,
    /// When this poll began.
    pub(crate) began: Tick,
}

impl Model for PollerSet {
    ghost use Rattle.std.specs.Prelude.{◌+◌, ◌≤◌, length, vec_capacity};
    ghost use Rattle.lw_poller.specs.Pollers.{Pollers, AreNumbered};

    ghost Value = { Pollers };

    ghost view = { λ s. record {
      active = s.active.items;
      turn = s.turn;
      before = s.before;
      timed = s.timed.items;
      resting = s.resting.items;
      over = s.over.word;
      began = s.began;
    } };

    ghost invariant = { λ s.
        AreNumbered s.live.word (record {
          active = s.active.items;
          turn = s.turn;
          before = s.before;
          timed = s.timed.items;
          resting = s.resting.items;
          over = s.over.word;
          began = s.began;
        })
        × (length s.timed.items + length s.resting.items ≤ vec_capacity s.timed)
        × (length s.timed.items + length s.resting.items ≤ vec_capacity s.resting) };
}

impl PollerSet {
    /// No pollers, and no poll has begun. It fails for want of memory alone.
    pub fn new(alloc: Global) -> Result<PollerSet, NoMemory>
        ensures { IfOk result (λ s. s ≡ no_pollers) }
    {
        Ok(PollerSet {
            live: Numbers::none(),
            active: Vec::with_capacity(alloc, FIRST_ROOM)?,
            turn: 0,
            before: 0,
            timed: Vec::with_capacity(alloc, FIRST_ROOM)?,
            resting: Vec::with_capacity(alloc, FIRST_ROOM)?,
            over: Numbers::none(),
            began: 0,
        })
    }

    /// Whether no poller is live. What is true of each set of pollers can be learned by this call, and by `begin`.
    pub fn is_empty(&self) -> bool
        ensures empty { IsTrue result ↔ (live_count self.now ≡ 0) }
        ensures kept { AreKept self.now }
    {
        self.active.is_empty() && self.timed.is_empty() && self.resting.is_empty()
    }
}
