//! A poll goes through the pollers.
ghost use Rattle.std.specs.Prelude.{◌≡◌, ℕ, IfSome, IfNone};
ghost use Rattle.lw_poller.specs.Pollers.{AreKept};
ghost use Rattle.lw_poller.specs.LocalDue.{begun, IsNextActive, NoneActive, IsNextTimed, NoneDue};
ghost use Rattle.lw_poller.specs.Changes.{GivesActive, GivesTimed};

use crate::names::PollerId;
use crate::numbers::Numbers;
use crate::places::{awake_place, due_place, queue};
use crate::poller::Timed;
use crate::set::PollerSet;
use lw_base::Tick;

impl PollerSet {
    /// Begins a poll. It may call each poller that is live now.
    pub fn begin(&mut self, now: Tick)
        ensures begun { self.new ≡ begun now self.old }
        ensures kept { AreKept self.new }
    {
        self.turn = 0;
        self.before = self.active.len();
        self.over = Numbers::none();
        self.began = now;
    }

    /// The active poller that this poll calls next, if there is one: of those that were added before the poll, aren't paused
    /// and were registered after the one given last, the one registered first. So each is given once a poll at most.
    pub fn next_active(&mut self) -> Option<PollerId>
        ensures given { IfSome result (λ id. (place : ℕ) × IsNextActive self.old place × GivesActive place id.0 self.old self.new) }
        ensures none { IfNone result (NoneActive self.old) }
        ensures same { IfNone result (self.new ≡ self.old) }
    {
        let place = awake_place(self.active.as_slice(), self.turn, self.before)?;
        self.turn = place + 1;
        Some(PollerId(self.active[place].number))
    }

    /// The timed poller that this poll calls next, if there is one: of those that were added before the poll, weren't given in
    /// it, aren't paused and are due when the poll began, the one of least due time, and among equal due times the one whose
    /// due time was set first.
    ///
    /// Its due time is set anew: its period after the poll's beginning, at most the greatest u64. It takes no memory.
    pub fn next_timed(&mut self) -> Option<PollerId>
        ensures given { IfSome result (λ id. (place : ℕ) × IsNextTimed self.old place × GivesTimed place id.0 self.old self.new) }
        ensures none { IfNone result (NoneDue self.old) }
        ensures same { IfNone result (self.new ≡ self.old) }
    {
        let place = due_place(self.timed.as_slice(), self.over, self.began)?;
        let poller = self.timed.remove(place);
        self.over = self.over.with(poller.number);
        let again = Timed {
            number: poller.number,
            period: poller.period,
            due: self.began.saturating_add(poller.period),
        };
        queue(&mut self.timed, again);
        Some(PollerId(poller.number))
    }
}
