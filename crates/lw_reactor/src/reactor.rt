//! A reactor, and what it consists of.
ghost use Rattle.std.specs.Prelude.{◌≡◌, ◌↔◌, IsTrue};
ghost use Rattle.lw_reactor.specs.Reactors.{IsParts, IsKept, MaySleep, asleep};

use crate::worker::Worker;
use lw_base::Tick;
use lw_event::EventDesk;
use lw_place::DeskSeat;
use lw_rounds::Balancer;
use lw_station::Station;
use lw_thread::{Body, LightThread, Remains};
use std::alloc::Global;
use std::marker::Model;
use std::sync::Wait;

/// The first readings of a reactor's first turn and of its last.
#[derive(Clone, Copy, PartialEq, Eq, Debug)]
pub struct Span {
    /// The first turn's.
    pub first: Tick,
    /// The last turn's.
    pub last: Tick,
}

/// A reactor: the light threads that stand in its list, those that it holds, and what is left of those that ended there.
///
/// What it keeps, `number` tells.
#[derive(Drop)]
pub struct Reactor<B: Body, C> {
    pub(crate) alloc: Global,
    // Where each thread of the run starts.
    pub(crate) homes: Vec<u32>,
    pub(crate) worker: Worker<B, C>,
    // Who makes the rounds: reactor 0 has it, where threads may move.
    pub(crate) balancer: Option<Balancer>,
    pub(crate) span: Option<Span>,
    // How many events the last turn took.
    pub(crate) took: usize,
    pub(crate) stopped: bool,
}

impl<B: Body, C> Model for Reactor<B, C> {
    ghost use Rattle.lw_reactor.specs.Reactors.{ReactorEnd, IsKept};

    ghost Value = { ReactorEnd B.Message.Letter B.Message.Family B.Message B C };

    ghost view = { λ r. record {
      homes = r.homes.items;
      worker = r.worker;
      balancer = r.balancer;
      span = r.span;
      took = r.took;
      stopped = r.stopped;
    } };

    ghost invariant = { λ r. IsKept (record {
      homes = r.homes.items;
      worker = r.worker;
      balancer = r.balancer;
      span = r.span;
      took = r.took;
      stopped = r.stopped;
    }) };
}

/// The parts of a reactor that makes no turn any more.
#[derive(Drop)]
pub struct Parts<B: Body, C> {
    /// The reactor's number.
    pub number: u32,
    /// What is left of the threads that ended in its list, in the order in which they ended.
    pub remains: Vec<Remains<B>>,
    /// The threads that stand in its list.
    pub list: Vec<LightThread<B>>,
    /// The threads that it holds.
    pub held: Vec<LightThread<B>>,
    /// Its seat of the places.
    pub desk: DeskSeat,
    /// Its ends of the event rings, with the events that were taken and not handled.
    pub events: EventDesk<B>,
    /// The rounds, where it made them.
    pub balancer: Option<Balancer>,
    /// The first readings of its first turn and of its last, if it made one.
    pub span: Option<Span>,
    /// Its clock.
    pub clock: C,
}

impl<B: Body, C> Reactor<B, C> {
    /// The reactor's number. What each reactor keeps can be learned by this call.
    pub fn number(&self) -> u32
        ensures number { result ≡ self.entry.now.worker.station.number }
        ensures kept { IsKept self.entry.now }
    {
        self.worker.station.number
    }

    /// Whether it has nothing to do until it is woken: the last turn took no event, and no thread stands in its list. Reactor 0
    /// always has: it makes the rounds.
    pub fn may_sleep(&self) -> bool
        ensures { IsTrue result ↔ MaySleep self.entry.now }
    {
        self.worker.station.number != 0 && self.took == 0 && self.worker.station.list.is_empty()
    }

    /// Sleeps until it is woken: by whoever sends it an event, or finds the run over. A wake that came since the last sleep is
    /// taken at once. Nothing is claimed of how soon it wakes.
    pub fn sleep<R: Wait>(&mut self, rt: &R)
        ensures { self.new ≡ asleep self.old }
    {
        self.worker.sleep(rt);
    }

    /// Its parts.
    pub fn into_parts(self) -> Parts<B, C>
        ensures parts { IsParts self result }
        ensures kept { IsKept self }
    {
        let Reactor {
            alloc: _,
            homes: _,
            worker,
            balancer,
            span,
            took: _,
            stopped: _,
        } = self;
        let Worker {
            station,
            remains,
            desk,
            clock,
            now: _,
        } = worker;
        let Station {
            number,
            list,
            held,
            events,
            sleeper: _,
        } = station;
        Parts {
            number,
            remains,
            list,
            held,
            desk,
            events,
            balancer,
            span,
            clock,
        }
    }
}

fn is_send<X: Send>(_x: &X) {}

/// A reactor crosses to another machine thread. It is for no caller.
pub fn reactors_are_send<B: Body, C: Send>(reactor: &Reactor<B, C>) {
    is_send(reactor)
}
