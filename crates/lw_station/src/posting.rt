//! How a reactor sends events: whoever is sent one is woken.
ghost use Rattle.std.specs.Prelude.{◌≡◌, ◌<◌, length, IfErr, OnOk};
ghost use Rattle.lw_base.specs.Letters.{FitsRing};
ghost use Rattle.lw_event.specs.Events.{event_fits};
ghost use Rattle.lw_event.specs.Calls.{IsRefused};
ghost use Rattle.lw_event.specs.Desks.{IsStill};
ghost use Rattle.lw_station.specs.Posting.{Orders, Posts, StopOf};
ghost use Rattle.lw_station.specs.Stopping.{DeskStops, RefusesTo};

use crate::stop::Stop;
use lw_event::{Event, EventDesk, EventRefusal, Sleeper};
use lw_thread::Body;
use std::sync::Wait;

/// Sends an event, and wakes the reactor to which it goes. A refused one comes back as it was given, nobody is woken, and nothing
/// has changed.
///
/// What an event must meet and why it is refused is as with `EventDesk::send`. There is a right to wake that reactor.
pub fn post<B: Body, R: Wait>(
    rt: &R,
    events: &mut EventDesk<B>,
    sleeper: &mut Sleeper,
    to: u32,
    event: Event<B>,
) -> Result<(), EventRefusal<B>>
    requires range { to < length events.old.ends }
    requires fits { FitsRing event_fits to events.old.recv.family event }
    requires wakers { to < length sleeper.old.wakers }
    ensures sent { OnOk result (Posts to event events.old events.new sleeper.old sleeper.new) }
    ensures refused { IfErr result (λ r. IsRefused to event events.old r × (events.new ≡ events.old)
        × (sleeper.new ≡ sleeper.old)) }
    ensures still { IsStill events.old events.new }
{
    events.send(rt, to, event)?;
    sleeper.wake(to);
    Ok(())
}

/// Sends an order to reactor `at`, where the thread of this number stands: in a round's, to send it to reactor `to`; in round 0,
/// to start it.
///
/// Both reactors are of the run. It fails as `Spent`, naming the end, exactly where 2^40 events were sent to that reactor, and
/// as `NoMemory` for want of memory; then nobody is woken, and nothing has changed.
pub fn order<B: Body, R: Wait>(
    rt: &R,
    events: &mut EventDesk<B>,
    sleeper: &mut Sleeper,
    at: u32,
    round: u32,
    thread: u32,
    to: u32,
) -> Result<(), Stop>
    requires range { (at < length events.old.ends) × (to < length events.old.ends) }
    requires wakers { at < length sleeper.old.wakers }
    ensures sent { OnOk result (Orders at round thread to events.old events.new sleeper.old sleeper.new) }
    ensures stop { IfErr result (λ s. DeskStops events.new s × (events.new ≡ events.old)
        × (sleeper.new ≡ sleeper.old)) }
    ensures cause { IfErr result (RefusesTo at events.old) }
    ensures still { IsStill events.old events.new }
{
    let from = events.number();
    let event = Event::order(round, thread, to);
    match post(rt, events, sleeper, at, event) {
        Ok(()) => Ok(()),
        Err(refusal) => Err(stop_of(from, at, &refusal)),
    }
}

/// Why reactor `from` stops whose event to reactor `to` was refused.
pub fn stop_of<B: Body>(from: u32, to: u32, refusal: &EventRefusal<B>) -> Stop
    ensures { StopOf from to refusal.now result }
{
    match refusal {
        EventRefusal::Spent { event: _, count } => Stop::Spent {
            events: true,
            from,
            to,
            count: *count,
        },
        EventRefusal::NoMemory { event: _ } => Stop::NoMemory,
    }
}
