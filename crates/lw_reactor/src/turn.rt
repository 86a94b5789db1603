//! One turn of a reactor.
ghost use Rattle.std.specs.Prelude.{◌≡◌, Some, [], length, IfErr, IfOk};
ghost use Rattle.lw_thread.specs.Polls.{Polls};
ghost use Rattle.lw_station.specs.Stations.{IsStationOf, MayAllGo};
ghost use Rattle.lw_reactor.specs.Polling.{Halts};
ghost use Rattle.lw_reactor.specs.Stopping.{IsShown};
ghost use Rattle.lw_reactor.specs.Reactors.{IsGoing, IsReactorOf};
ghost use Rattle.lw_reactor.specs.Turns.{EventsStop, HandlesEvents, Looks, Steps, StepsStop, spanned};

use crate::reactor::{Reactor, Span};
use crate::worker::Worker;
use lw_base::{Clock, Tick};
use lw_rounds::Balancer;
use lw_station::{Stop, Turned};
use lw_thread::Body;
use std::alloc::Global;
use std::sync::Wait;

impl<B: Body, C: Clock> Reactor<B, C> {
    ghost use Rattle.std.specs.Prelude.{false, OnOk};
    ghost use Rattle.lw_reactor.specs.Reactors.{ReactorStill};
    ghost use Rattle.lw_reactor.specs.Turns.{Turns, TurnStops};

    /// One turn. It reads the clock; makes a round, where this reactor makes them and one is due; takes eight events at most and
    /// handles them in order; polls each thread of the list in order, books how long that took, and tries its end; and looks
    /// whether all threads have ended, and else whether the run was halted.
    ///
    /// After a Stop the run is halted, and the reactor makes no turn any more. It tells at which step it stopped: those behind it
    /// weren't made. Each of the reactor's threads still is in its list, held, or among what is left.
    pub fn turn<R: Wait>(&mut self, rt: &R) -> Result<Turned, Stop>
        requires { self.old.stopped ≡ false }
        ensures turned { IfOk result (λ t. Turns C.readings
            (Polls B.Message.letter B.Message.tag_of B.Message.fits B.Message.marked B.runs B.ticks B.takes_back)
            B.ends t self.old self.new) }
        ensures stops { IfErr result (λ s. TurnStops C.readings
            (Polls B.Message.letter B.Message.tag_of B.Message.fits B.Message.marked B.runs B.ticks B.takes_back)
            (Halts B.Message.letter B.Message.tag_of B.Message.fits B.Message.marked B.runs B.ticks B.takes_back)
            B.ends s self.old self.new) }
        ensures shown { IfErr result (IsShown self.new.worker.station) }
        ensures going { OnOk result (self.new.stopped ≡ false) }
        ensures still { ReactorStill C.readings self.old self.new }
    {
        let now = self.worker.read();
        self.span = Some(spanned(now, self.span));
        let turned = self.worker.steps(
            rt,
            self.alloc,
            self.homes.as_slice(),
            &mut self.balancer,
            &mut self.took,
        );
        if turned.is_err() {
            self.stopped = true;
            self.worker.halt();
        }
        turned
    }
}

// The span with this turn's first reading.
fn spanned(now: Tick, span: Option<Span>) -> Span
    ensures { Some result ≡ spanned now span }
{
    match span {
        Some(span) => Span {
            first: span.first,
            last: now,
        },
        None => Span {
            first: now,
            last: now,
        },
    }
}

impl<B: Body, C: Clock> Worker<B, C> {
    ghost use Rattle.lw_reactor.specs.Turns.{halted};

    // The steps of a turn behind its first reading.
    fn steps<R: Wait>(
        &mut self,
        rt: &R,
        alloc: Global,
        homes: &[u32],
        balancer: &mut Option<Balancer>,
        took: &mut usize,
    ) -> Result<Turned, Stop>
        requires { (run : _) × IsReactorOf run homes.now balancer.old self.old × IsGoing homes.now balancer.old self.old }
        ensures made { IfOk result (λ t. Steps C.readings
            (Polls B.Message.letter B.Message.tag_of B.Message.fits B.Message.marked B.runs B.ticks B.takes_back)
            B.ends t homes.now took.new balancer.old balancer.new self.old self.new) }
        ensures stops { IfErr result (λ s. StepsStop C.readings
            (Polls B.Message.letter B.Message.tag_of B.Message.fits B.Message.marked B.runs B.ticks B.takes_back)
            (Halts B.Message.letter B.Message.tag_of B.Message.fits B.Message.marked B.runs B.ticks B.takes_back)
            B.ends s homes.now took.old took.new balancer.old balancer.new self.old self.new) }
        ensures shown { IfErr result (IsShown self.new.station) }
    {
        self.balance(rt, alloc, balancer)?;
        *took = self.take_events(rt)?;
        self.poll_all(rt, homes)?;
        Ok(self.look(homes.len() as u64))
    }

    // Takes the events that wait, and handles them. How many there were.
    fn take_events<R: Wait>(&mut self, rt: &R) -> Result<usize, Stop>
        requires going { (run : _) × (homes : _) × IsStationOf run homes self.old.station × MayAllGo homes self.old.station }
        requires none { self.old.station.events.batch ≡ [] }
        ensures handled { IfOk result (λ n. HandlesEvents n self.old self.new) }
        ensures stops { IfErr result (λ s. EventsStop s self.old self.new) }
        ensures shown { IfErr result (IsShown self.new.station) }
    {
        self.station.take_events(rt)
    }

    // Looks whether the run is over. Whoever finds all threads ended wakes all, so that each finds it.
    fn look(&mut self, threads: u64) -> Turned
        ensures { Looks result threads self.old self.new }
    {
        if self.desk.look_done() == threads {
            self.station.sleeper.wake_all();
            return Turned::Finished;
        }
        if self.desk.halted() {
            Turned::Halted
        } else {
            Turned::Going
        }
    }

    // Halts the run, and wakes all.
    fn halt(&mut self)
        ensures { self.new ≡ halted self.old }
    {
        self.desk.halt();
        self.station.sleeper.wake_all();
    }
}
