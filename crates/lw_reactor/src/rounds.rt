//! The rounds of reactor 0.
ghost use Rattle.std.specs.Prelude.{◌≡◌, ◌<◌, ◌≤◌, length, All, IfErr, OnOk};
ghost use Rattle.lw_thread.specs.Runs.{RunId};
ghost use Rattle.lw_reactor.specs.Reactors.{BalancesRun, IsReactorOf};
ghost use Rattle.lw_reactor.specs.Stopping.{IsShown};
ghost use Rattle.lw_reactor.specs.Rounding.{Balances, MakesNone, MakesRound, OrderFails, OrdersAll, OrdersSome, RoundFails, RoundStops, telling, telling_own};

use crate::worker::Worker;
use lw_event::{EventDesk, Sleeper};
use lw_load::Figures;
use lw_rounds::Balancer;
use lw_station::{Station, Stop, order};
use lw_thread::{Body, LightThread};
use std::alloc::Global;
use std::sync::Wait;

impl<B: Body, C> Worker<B, C> {
    ghost use Rattle.std.specs.Prelude.{◌⊎◌, Some};

    // Makes a round, where this reactor makes them and one is due at the turn's first reading, and sends its orders.
    pub(crate) fn balance<R: Wait>(
        &mut self,
        rt: &R,
        alloc: Global,
        balancer: &mut Option<Balancer>,
    ) -> Result<(), Stop>
        requires { (run : _) × (homes : _) × IsReactorOf run homes balancer.old self.old }
        ensures balanced { OnOk result (Balances balancer.old balancer.new self.old self.new) }
        ensures stops { IfErr result (λ s. RoundStops s balancer.old balancer.new self.old self.new) }
        ensures shown { IfErr result (IsShown self.new.station) }
    {
        match balancer {
            Some(balancer) => self.make_round(rt, alloc, balancer),
            None => Ok(()),
        }
    }

    // Makes a round where one is due.
    fn make_round<R: Wait>(
        &mut self,
        rt: &R,
        alloc: Global,
        balancer: &mut Balancer,
    ) -> Result<(), Stop>
        requires { (run : _) × (homes : _) × IsReactorOf run homes (Some balancer.old) self.old }
        ensures balanced { OnOk result (MakesRound balancer.old balancer.new self.old self.new ⊎ MakesNone balancer.old balancer.new self.old self.new) }
        ensures stops { IfErr result (λ s. RoundFails s balancer.old balancer.new self.old self.new ⊎ OrderFails s balancer.old balancer.new self.old self.new) }
        ensures shown { IfErr result (IsShown self.new.station) }
    {
        if !balancer.is_due(self.now) {
            return Ok(());
        }
        tell_own(balancer, &self.station);
        balancer.balance(rt, alloc, self.now, &mut self.desk)?;
        send_all(rt, &*balancer, &mut self.station)
    }
}

// Tells the sums of all threads that a reactor has.
fn tell_own<B: Body>(balancer: &mut Balancer, station: &Station<B>)
    requires list { All (λ t. t.seat.thread < length balancer.old.masks) station.now.list }
    requires held { All (λ t. t.seat.thread < length balancer.old.masks) station.now.held }
    ensures { balancer.new ≡ telling_own station.now balancer.old }
{
    tell_sums(balancer, station.list.as_slice());
    tell_sums(balancer, station.held.as_slice());
}

// Tells the sums of these threads, which the round is to go by.
fn tell_sums<B: Body>(balancer: &mut Balancer, threads: &[LightThread<B>])
    requires { All (λ t. t.seat.thread < length balancer.old.masks) threads.now }
    ensures { balancer.new ≡ telling threads.now balancer.old }
{
    for thread in threads {
        let (busy, idle) = thread.sums();
        balancer.tell(thread.number(), Figures { busy, idle });
    }
}

// Sends each order of the last round to the reactor in whose list the round found its thread.
fn send_all<B: Body, R: Wait>(
    rt: &R,
    balancer: &Balancer,
    station: &mut Station<B>,
) -> Result<(), Stop>
    requires reactors { length station.old.events.ends ≡ balancer.now.reactors }
    requires wakers { length station.old.sleeper.wakers ≡ balancer.now.reactors }
    requires some { 1 ≤ length balancer.now.rounds }
    ensures sent { OnOk result (OrdersAll balancer.now station.old.events station.new.events station.old.sleeper station.new.sleeper) }
    ensures stops { IfErr result (λ s. OrdersSome balancer.now s station.old.events station.new.events station.old.sleeper station.new.sleeper) }
    ensures shown { IfErr result (IsShown station.new) }
    ensures station { station.new ≡ record station.old { events = station.new.events; sleeper = station.new.sleeper } }
{
    send_orders(rt, balancer, &mut station.events, &mut station.sleeper)
}

// The same, by the ends of the event rings and the sleeper.
fn send_orders<B: Body, R: Wait>(
    rt: &R,
    balancer: &Balancer,
    events: &mut EventDesk<B>,
    sleeper: &mut Sleeper,
) -> Result<(), Stop>
    requires reactors { length events.old.ends ≡ balancer.now.reactors }
    requires wakers { length sleeper.old.wakers ≡ balancer.now.reactors }
    requires some { 1 ≤ length balancer.now.rounds }
    ensures sent { OnOk result (OrdersAll balancer.now events.old events.new sleeper.old sleeper.new) }
    ensures stops { IfErr result (λ s. OrdersSome balancer.now s events.old events.new sleeper.old sleeper.new) }
{
    let Some(round) = balancer.rounds().last() else {
        unreachable!()
    };
    for next in round.orders.as_slice() {
        let at = balancer.stood(next.thread);
        order(rt, events, sleeper, at, round.number, next.thread, next.to)?;
    }
    Ok(())
}
