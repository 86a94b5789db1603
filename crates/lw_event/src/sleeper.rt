//! Reactors that sleep.
ghost use Rattle.std.specs.Prelude.{◌≡◌, ◌+◌, ◌<◌, ◌≤◌, [], map, length, slice_index_or, slice_set, IfOk};
ghost use Rattle.std.specs.Arc.{arc_value};
ghost use Rattle.crossbeam_utils.specs.Token.{IsSamePass, parker_view};
ghost use Rattle.lw_place.specs.PlaceWord.{most_reactors};
ghost use Rattle.lw_event.specs.Sleepers.{AreNew, AreAlone, new_sleeper, new_waker, once_more};

use crate::signal::{Parker, Pass, Sleeping, Unparker, Waking};
use lw_base::NoMemory;
use std::alloc::Global;
use std::marker::Model;
use std::sync::Wait;

/// The right to wake one reactor.
#[derive(Drop)]
struct Waker {
    unparker: Unparker,
    pass: Pass,
}

impl Model for Waker {
    ghost use Rattle.std.specs.Prelude.{◌≡◌};
    ghost use Rattle.std.specs.Arc.{arc_value};
    ghost use Rattle.crossbeam_utils.specs.Token.{parker_view};
    ghost use Rattle.lw_event.specs.Sleepers.{WakerEnd};

    ghost Value = { WakerEnd };

    ghost view = { λ w. record { parker = w.pass.table_id; woke = (parker_view w.pass).woke } };

    ghost invariant = { λ w. w.pass.table_id ≡ (arc_value w.unparker.state).shared.table_id };
}

impl Waker {
    fn wake(&mut self)
        ensures { self.new ≡ once_more self.old }
    {
        self.unparker.unpark_as::<Waking>(&mut self.pass);
    }
}

/// One reactor's right to sleep, and to wake each of them.
#[derive(Drop)]
pub struct Sleeper {
    reactor: u32,
    parker: Parker,
    pass: Pass,
    wakers: Vec<Waker>,
}

impl Model for Sleeper {
    ghost use Rattle.std.specs.Prelude.{◌≡◌};
    ghost use Rattle.std.specs.Arc.{arc_value};
    ghost use Rattle.crossbeam_utils.specs.Token.{parker_view};
    ghost use Rattle.lw_event.specs.Sleepers.{SleeperEnd};

    ghost Value = { SleeperEnd };

    ghost view = { λ s. record {
      reactor = s.reactor;
      parker = s.pass.table_id;
      slept = (parker_view s.pass).slept;
      wakers = s.wakers.items;
    } };

    ghost invariant = { λ s. s.pass.table_id ≡ (arc_value s.parker.unparker.state).shared.table_id };
}

impl Sleeper {
    /// Sleeps until its reactor is woken. Where a wake came since the last sleep, it is taken at once. Several wakes between two sleeps
    /// are one.
    ///
    /// Each sleep takes one wake that was given: that is the rule of a sleeper's parker, which every call keeps. Nothing is claimed
    /// of how soon it wakes.
    pub fn sleep<R: Wait>(&mut self, rt: &R)
        ensures { self.new ≡ record self.old { slept = self.old.slept + 1 } }
    {
        self.parker.park_as::<Sleeping, R>(rt, &mut self.pass);
    }

    // The right to wake this one.
    fn waker(&self) -> Result<Waker, NoMemory>
        ensures { IfOk result (λ w. w ≡ new_waker self.now.parker) }
    {
        let unparker = self.parker.unparker().clone()?;
        let pass = unparker.pass();
        Ok(Waker { unparker, pass })
    }

    /// Wakes a reactor, or sees to it that its next sleep ends at once.
    pub fn wake(&mut self, reactor: u32)
        requires { reactor < length self.old.wakers }
        ensures { (d : _) → self.new ≡ record self.old {
          wakers = slice_set self.old.wakers reactor (once_more (slice_index_or self.old.wakers reactor d));
        } }
    {
        self.wakers[reactor as usize].wake();
    }

    /// Wakes each reactor once, its own too.
    pub fn wake_all(&mut self)
        ensures { self.new ≡ record self.old { wakers = map once_more self.old.wakers } }
    {
        for waker in self.wakers.iter_mut() {
            waker.wake();
        }
    }
}

/// The sleepers of 1 to 16 reactors, in order: each can sleep, and wake each. It fails for want of memory alone.
pub fn sleepers(alloc: Global, reactors: u32) -> Result<Vec<Sleeper>, NoMemory>
    requires { (1 ≤ reactors) × (reactors ≤ most_reactors) }
    ensures { IfOk result (λ v. AreNew reactors v.items) }
{
    let mut sleepers = alone(alloc, reactors)?;
    for reactor in 0..reactors {
        let wakers = wakers(alloc, sleepers.as_slice())?;
        sleepers[reactor as usize].wakers = wakers;
    }
    Ok(sleepers)
}

// Sleepers that can wake nobody.
fn alone(alloc: Global, reactors: u32) -> Result<Vec<Sleeper>, NoMemory>
    ensures { IfOk result (λ v. AreAlone reactors v.items) }
{
    let mut sleepers = Vec::new(alloc);
    for reactor in 0..reactors {
        sleepers.push(lone_sleeper(alloc, reactor)?)?;
    }
    Ok(sleepers)
}

// A sleeper that can wake nobody.
fn lone_sleeper(alloc: Global, reactor: u32) -> Result<Sleeper, NoMemory>
    ensures { IfOk result (λ s. s ≡ new_sleeper s.parker reactor []) }
{
    let (parker, pass) = Parker::ruled(alloc)?;
    Ok(Sleeper {
        reactor,
        parker,
        pass,
        wakers: Vec::new(alloc),
    })
}

// The right to wake each of these.
fn wakers(alloc: Global, sleepers: &[Sleeper]) -> Result<Vec<Waker>, NoMemory>
    ensures { IfOk result (λ v. v.items ≡ map (λ s. new_waker s.parker) sleepers.now) }
{
    let mut wakers = Vec::new(alloc);
    for sleeper in sleepers {
        wakers.push(sleeper.waker()?)?;
    }
    Ok(wakers)
}

fn is_send<X: Send>(_x: &X) {}

/// A sleeper crosses to another machine thread. It is for no caller.
pub fn sleepers_are_send(sleeper: &Sleeper) {
    is_send(sleeper)
}
