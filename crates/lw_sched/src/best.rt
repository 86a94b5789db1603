//! The best of the reactors that a thread may go to.
ghost use Rattle.std.specs.Prelude.{◌≡◌, ◌<◌, ◌≤◌, length, slice_index};
ghost use Rattle.lw_base.specs.Plan.{targets};
ghost use Rattle.lw_sched.specs.BestOf.{best_of, looked, IsBelow};

use crate::masks::allows;
use lw_base::Limits;

/// What is known of a thread that doesn't stay.
#[derive(Copy, Clone, Drop)]
pub struct Mover {
    /// The limits of the plan.
    pub limits: Limits,
    /// Its load.
    pub load: u32,
    /// The reactors that it may go to.
    pub mask: u32,
}

/// The best reactors of those that were looked at.
#[derive(Copy, Clone, Drop)]
pub struct Best {
    /// The first with room for the thread.
    pub room: Option<u32>,
    /// The first for which the least is planned.
    pub least: Option<u32>,
}

impl Best {
    /// The best of all reactors that the mover may go to, in the order 1, .., R-1, 0, with what is planned for each of the 1 to
    /// 16 reactors.
    pub fn of(mover: Mover, planned: &[u32]) -> Best
        requires { (1 ≤ length planned.now) × (length planned.now ≤ 16) }
        ensures best { result ≡ best_of mover (slice_index planned.now) (targets mover.mask (length planned.now)) }
        ensures below { IsBelow (length planned.now) result }
    {
        // The last are looked at first, so that each that is as good as one behind it takes its place.
        let mut reactor = planned.len() as u32;
        let mut best = Best {
            room: None,
            least: None,
        }
        .look(mover, planned, 0);
        while reactor > 1 {
            reactor -= 1;
            best = best.look(mover, planned, reactor);
        }
        best
    }

    // The best of these and of one reactor before them.
    fn look(self, mover: Mover, planned: &[u32], reactor: u32) -> Best
        requires few { length planned.now ≤ 16 }
        requires reactor { reactor < length planned.now }
        requires these { IsBelow (length planned.now) self }
        ensures best { result ≡ looked mover (slice_index planned.now) (length planned.now) reactor self }
        ensures below { IsBelow (length planned.now) result }
    {
        if !allows(mover.mask, planned.len() as u32, reactor) {
            return self;
        }
        let here = planned[reactor as usize];
        let room = if here as u64 + mover.load as u64 <= mover.limits.core as u64 {
            Some(reactor)
        } else {
            self.room
        };
        let least = match self.least {
            Some(least) if here > planned[least as usize] => self.least,
            _ => Some(reactor),
        };
        Best { room, least }
    }
}
