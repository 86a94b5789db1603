//! Pollers are paused, resumed and removed.
ghost use Rattle.std.specs.Prelude.{◌≡◌, ◌<◌, length, IfErr, IfSome, IfNone, OnOk, slice_index_or, remove};
ghost use Rattle.lw_poller.specs.Pollers.{active_number, timed_number, resting_number, times};
ghost use Rattle.lw_poller.specs.Changes.{Stands, IsSpot, Pauses, Resumes, Removes, IsUnknown, Wakes, with_paused, laid_down, without_active, less_at as less_at_place};

use crate::names::{PollerId, PollerRefusal};
use crate::places::{Spot, place_of_active, place_of_resting, place_of_timed, queue};
use crate::poller::{Active, Resting, Timed};
use crate::set::PollerSet;
use lw_base::Tick;

impl PollerSet {
    /// Pauses a poller: it isn't called until it is resumed. One that is paused stays so.
    ///
    /// Refusal: `Unknown` exactly where no live poller has the number. It takes no memory.
    pub fn pause(&mut self, id: PollerId) -> Result<(), PollerRefusal>
        ensures paused { OnOk result (Pauses id.0 self.old self.new) }
        ensures cause { IfErr result (λ e. IsUnknown id.0 self.old self.new e) }
    {
        match self.spot(id.0) {
            Some(Spot::Active(place)) => {
                self.set_paused(place, id.0, true);
                Ok(())
            }
            Some(Spot::Timed(place)) => {
                self.lay_down(place);
                Ok(())
            }
            Some(Spot::Resting(_)) => Ok(()),
            None => Err(PollerRefusal::Unknown),
        }
    }

    /// Resumes a poller that is paused. A timed one is due at `now + period`, at most the greatest u64. One that isn't paused
    /// stays as it is.
    ///
    /// Refusal: `Unknown` exactly where no live poller has the number. It takes no memory.
    pub fn resume(&mut self, id: PollerId, now: Tick) -> Result<(), PollerRefusal>
        ensures resumed { OnOk result (Resumes id.0 now self.old self.new) }
        ensures cause { IfErr result (λ e. IsUnknown id.0 self.old self.new e) }
    {
        match self.spot(id.0) {
            Some(Spot::Active(place)) => {
                self.set_paused(place, id.0, false);
                Ok(())
            }
            Some(Spot::Timed(_)) => Ok(()),
            Some(Spot::Resting(place)) => {
                self.wake(place, now);
                Ok(())
            }
            None => Err(PollerRefusal::Unknown),
        }
    }

    /// Removes a poller. Its number is free from then on.
    ///
    /// Refusal: `Unknown` exactly where no live poller has the number.
    pub fn remove(&mut self, id: PollerId) -> Result<(), PollerRefusal>
        ensures removed { OnOk result (Removes id.0 self.old self.new) }
        ensures cause { IfErr result (λ e. IsUnknown id.0 self.old self.new e) }
    {
        match self.spot(id.0) {
            Some(Spot::Active(place)) => {
                self.remove_active(place, id.0);
                Ok(())
            }
            Some(Spot::Timed(place)) => {
                self.remove_timed(place, id.0);
                Ok(())
            }
            Some(Spot::Resting(place)) => {
                self.remove_resting(place, id.0);
                Ok(())
            }
            None => Err(PollerRefusal::Unknown),
        }
    }

    // Where the live poller with this number stands.
    fn spot(&self, number: u32) -> Option<Spot>
        ensures found { IfSome result (λ spot. IsSpot self.now number spot) }
        ensures none { IfNone result (times number self.now ≡ 0) }
    {
        if let Some(place) = place_of_active(self.active.as_slice(), number) {
            return Some(Spot::Active(place));
        }
        if let Some(place) = place_of_timed(self.timed.as_slice(), number) {
            return Some(Spot::Timed(place));
        }
        if let Some(place) = place_of_resting(self.resting.as_slice(), number) {
            return Some(Spot::Resting(place));
        }
        None
    }

    // The active poller at a place, which has this number, is paused or not.
    fn set_paused(&mut self, place: usize, number: u32, paused: bool)
        requires { Stands active_number self.old.active place number }
        ensures { self.new ≡ with_paused paused place number self.old }
    {
        self.active[place] = Active { number, paused };
    }

    // The timed poller at a place is paused.
    fn lay_down(&mut self, place: usize)
        requires { place < length self.old.timed }
        ensures { (d : Timed) → self.new ≡ laid_down place (slice_index_or self.old.timed place d) self.old }
    {
        let poller = self.timed.remove(place);
        self.resting.push_reserved(Resting {
            number: poller.number,
            period: poller.period,
        });
    }

    // The paused timed poller at a place is due again.
    fn wake(&mut self, place: usize, now: Tick)
        requires { place < length self.old.resting }
        ensures { Wakes place now self.old self.new }
    {
        let poller = self.resting.remove(place);
        let poller = Timed {
            number: poller.number,
            period: poller.period,
            due: now.saturating_add(poller.period),
        };
        queue(&mut self.timed, poller);
    }

    // The active poller at a place, which has this number, is gone.
    fn remove_active(&mut self, place: usize, number: u32)
        requires { Stands active_number self.old.active place number }
        ensures { self.new ≡ without_active place self.old }
    {
        self.active.remove(place);
        self.turn = less_at(place, self.turn);
        self.before = less_at(place, self.before);
        self.live = self.live.without(number);
    }

    // The timed poller at a place, which has this number, is gone.
    fn remove_timed(&mut self, place: usize, number: u32)
        requires { Stands timed_number self.old.timed place number }
        ensures { self.new ≡ record self.old { timed = remove self.old.timed place } }
    {
        self.timed.remove(place);
        self.live = self.live.without(number);
    }

    // The paused timed poller at a place, which has this number, is gone.
    fn remove_resting(&mut self, place: usize, number: u32)
        requires { Stands resting_number self.old.resting place number }
        ensures { self.new ≡ record self.old { resting = remove self.old.resting place } }
    {
        self.resting.remove(place);
        self.live = self.live.without(number);
    }
}

// How many of the first `many` are left once the one at the place is gone.
fn less_at(place: usize, many: usize) -> usize
    ensures { result ≡ less_at_place place many }
{
    if place < many { many - 1 } else { many }
}
