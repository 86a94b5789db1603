//! What a reactor works with.
ghost use Rattle.std.specs.Prelude.{◌≡◌};
ghost use Rattle.lw_reactor.specs.Workers.{Reads};

use lw_base::{Clock, Tick};
use lw_place::DeskSeat;
use lw_station::Station;
use lw_thread::{Body, Remains};
use std::marker::Model;
use std::sync::Wait;

// The light threads of a reactor and all that it polls and ends them by.
#[derive(Drop)]
pub(crate) struct Worker<B: Body, C> {
    pub(crate) station: Station<B>,
    // What is left of the threads that ended in the list, in the order in which they ended.
    pub(crate) remains: Vec<Remains<B>>,
    pub(crate) desk: DeskSeat,
    pub(crate) clock: C,
    // The greatest reading so far.
    pub(crate) now: Tick,
}

impl<B: Body, C> Model for Worker<B, C> {
    ghost use Rattle.lw_reactor.specs.Workers.{WorkerEnd};

    ghost Value = { WorkerEnd B.Message.Letter B.Message.Family B.Message B C };

    ghost view = { λ w. record {
      station = w.station;
      remains = w.remains.items;
      desk = w.desk;
      clock = w.clock;
      now = w.now;
    } };
}

impl<B: Body, C> Worker<B, C> {
    ghost use Rattle.lw_reactor.specs.Workers.{slept};

    // Sleeps until the reactor is woken.
    pub(crate) fn sleep<R: Wait>(&mut self, rt: &R)
        ensures { self.new ≡ slept self.old }
    {
        self.station.sleeper.sleep(rt);
    }
}

impl<B: Body, C: Clock> Worker<B, C> {
    ghost use Rattle.lw_reactor.specs.Workers.{ReadsOnce};

    // Reads the clock.
    pub(crate) fn read(&mut self) -> Tick
        ensures read { ReadsOnce C.readings self.old self.new }
        ensures now { result ≡ self.new.now }
    {
        read(&mut self.clock, &mut self.now)
    }
}

// Reads a clock whose greatest reading so far is `now`. One below that counts as it.
pub(crate) fn read<C: Clock>(clock: &mut C, now: &mut Tick) -> Tick
    ensures read { Reads C.readings clock.old now.old clock.new now.new }
    ensures now { result ≡ now.new }
{
    *now = clock.now().max(*now);
    *now
}
