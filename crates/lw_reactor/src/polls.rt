//! The polls of a turn.
ghost use Rattle.std.specs.Prelude.{◌≡◌, ◌<◌, ◌↔◌, false, length, All, IsTrue, IfErr, IfNone, IfOk, IfSome, OnOk};
ghost use Rattle.lw_place.specs.PlaceSeats.{IsList};
ghost use Rattle.lw_thread.specs.Endings.{MayEnd};
ghost use Rattle.lw_thread.specs.Polls.{Polls};
ghost use Rattle.lw_station.specs.Stations.{MayAllGo};
ghost use Rattle.lw_station.specs.Stopping.{IsStopOf};
ghost use Rattle.lw_reactor.specs.Workers.{AreHomes, IsWorkerOf};
ghost use Rattle.lw_reactor.specs.Stopping.{IsShown, ThreadStops};
ghost use Rattle.lw_reactor.specs.Polling.{Halts, HaltsAt, IsHalted, IsPolled, IsThere, LacksRoom, ListHalts, ListPolls, ListsEnd, ListsNotYet, OrdersSomeStarts, OrdersStarts, PollHalts, PollsAll, PollsNext, PollsOne, PollsThread, PollingStops, StartHalts, StationStarts, StationStartsSome, TriesEnd};

use crate::worker::{Worker, read};
use lw_base::{Clock, Tick};
use lw_event::{EventDesk, Sleeper};
use lw_station::{Station, Stop, order};
use lw_thread::{Body, Ending, LightThread, Polled, Remains};
use std::sync::Wait;

/// How many threads a reactor ends at most.
const MOST_REMAINS: usize = 127;

impl<B: Body, C: Clock> Worker<B, C> {
    // Polls each thread of the list, in order, and tries its end.
    pub(crate) fn poll_all<R: Wait>(&mut self, rt: &R, homes: &[u32]) -> Result<(), Stop>
        requires { (run : _) × AreHomes run homes.now × IsWorkerOf run homes.now self.old × MayAllGo homes.now self.old.station }
        ensures polled { OnOk result (PollsAll C.readings
            (Polls B.Message.letter B.Message.tag_of B.Message.fits B.Message.marked B.runs B.ticks B.takes_back)
            B.ends homes.now self.old self.new) }
        ensures stops { IfErr result (λ s. PollingStops C.readings
            (Polls B.Message.letter B.Message.tag_of B.Message.fits B.Message.marked B.runs B.ticks B.takes_back)
            (Halts B.Message.letter B.Message.tag_of B.Message.fits B.Message.marked B.runs B.ticks B.takes_back)
            B.ends homes.now s self.old self.new) }
        ensures shown { IfErr result (IsShown self.new.station) }
    {
        let count = self.threads();
        let mut at = 0;
        for _ in 0..count {
            let ended = self.poll_next(rt, homes, at)?;
            if !ended {
                at += 1;
            }
        }
        Ok(())
    }

    // How many threads stand in the list.
    fn threads(&self) -> usize
        ensures { result ≡ length self.entry.now.station.list }
    {
        self.station.list.len()
    }

    // Polls the thread at this place of the list, and tries its end. Whether it has ended.
    fn poll_next<R: Wait>(&mut self, rt: &R, homes: &[u32], at: usize) -> Result<bool, Stop>
        requires range { at < length self.old.station.list }
        requires worker { (run : _) × AreHomes run homes.now × IsWorkerOf run homes.now self.old × MayAllGo homes.now self.old.station }
        ensures polled { IfOk result (λ ended. PollsNext C.readings
            (Polls B.Message.letter B.Message.tag_of B.Message.fits B.Message.marked B.runs B.ticks B.takes_back)
            B.ends homes.now at ended self.old self.new) }
        ensures stops { IfErr result (λ s. HaltsAt C.readings
            (Polls B.Message.letter B.Message.tag_of B.Message.fits B.Message.marked B.runs B.ticks B.takes_back)
            (Halts B.Message.letter B.Message.tag_of B.Message.fits B.Message.marked B.runs B.ticks B.takes_back)
            B.ends homes.now at s self.old self.new) }
        ensures shown { IfErr result (IsShown self.new.station) }
    {
        let polled = self.poll(rt, at)?;
        start_all(rt, &mut self.station, homes, polled.started.as_slice())?;
        self.end(at)
    }

    // Polls the thread at this place of the list, and books how long that took.
    fn poll<R: Wait>(&mut self, rt: &R, at: usize) -> Result<Polled, Stop>
        requires there { (thread : _) × IsThere self.old.station.list at thread × (thread.stopped ≡ false) }
        ensures polled { IfOk result (λ p. PollsOne C.readings
            (Polls B.Message.letter B.Message.tag_of B.Message.fits B.Message.marked B.runs B.ticks B.takes_back)
            at p self.old self.new) }
        ensures numbers { IfOk result (λ p. (thread : _) → IsThere self.old.station.list at thread →
            All (λ n. n < length thread.ends) p.started.items) }
        ensures stops { IfErr result (λ s. PollHalts C.readings
            (Polls B.Message.letter B.Message.tag_of B.Message.fits B.Message.marked B.runs B.ticks B.takes_back)
            (Halts B.Message.letter B.Message.tag_of B.Message.fits B.Message.marked B.runs B.ticks B.takes_back)
            B.ends at s self.old self.new) }
        ensures shown { IfErr result (IsShown self.new.station) }
    {
        poll_at(rt, &mut self.station, at, &mut self.clock, &mut self.now)
    }

    // Tries to end the thread at this place of the list, where it may end as far as it depends on itself. Whether it has ended.
    fn end(&mut self, at: usize) -> Result<bool, Stop>
        requires there { (thread : _) × IsThere self.old.station.list at thread × IsList thread.seat.place × (thread.stopped ≡ false) }
        requires retired { self.old.desk.retired ≡ length self.old.remains }
        ensures tried { IfOk result (λ ended. TriesEnd B.ends at ended self.old self.new) }
        ensures stops { IfErr result (λ s. LacksRoom B.ends at s self.old self.new) }
    {
        if !may_end(&self.station, at) || self.remains.len() >= MOST_REMAINS {
            return Ok(false);
        }
        self.remains.reserve(1)?;
        match try_end(&mut self.station, at) {
            Some(remains) => {
                self.remains.push_reserved(remains);
                self.desk.retire();
                Ok(true)
            }
            None => Ok(false),
        }
    }
}

// Whether the thread at this place of the list may end, as far as it depends on itself.
fn may_end<B: Body>(station: &Station<B>, at: usize) -> bool
    requires { at < length station.now.list }
    ensures { (thread : _) → IsThere station.now.list at thread → IsTrue result ↔ MayEnd B.ends thread }
{
    station.list[at].may_end()
}

// Tries to end the thread at this place of the list, which may end as far as it depends on itself. What is left of it, if its ring
// closed; else it stays at its place.
fn try_end<B: Body>(station: &mut Station<B>, at: usize) -> Option<Remains<B>>
    requires { (thread : _) × IsThere station.old.list at thread × IsList thread.seat.place × (thread.stopped ≡ false) × MayEnd B.ends thread }
    ensures ended { IfSome result (λ left. ListsEnd B.ends at left station.old station.new) }
    ensures not_yet { IfNone result (ListsNotYet B.ends at station.old station.new) }
{
    match station.list.remove(at).try_end() {
        Ending::Ended(remains) => Some(remains),
        Ending::NotYet(thread, _) => {
            if station.list.insert(at, thread).is_err() {
                unreachable!()
            }
            None
        }
    }
}

// Polls the thread at this place of the station's list, and books how long that took.
fn poll_at<B: Body, C: Clock, R: Wait>(
    rt: &R,
    station: &mut Station<B>,
    at: usize,
    clock: &mut C,
    now: &mut Tick,
) -> Result<Polled, Stop>
    requires there { (thread : _) × IsThere station.old.list at thread × (thread.stopped ≡ false) }
    ensures polled { IfOk result (λ p. ListPolls C.readings
        (Polls B.Message.letter B.Message.tag_of B.Message.fits B.Message.marked B.runs B.ticks B.takes_back)
        at p station.old station.new clock.old clock.new now.old now.new) }
    ensures numbers { IfOk result (λ p. (thread : _) → IsThere station.old.list at thread →
        All (λ n. n < length thread.ends) p.started.items) }
    ensures stops { IfErr result (λ s. ListHalts C.readings
        (Polls B.Message.letter B.Message.tag_of B.Message.fits B.Message.marked B.runs B.ticks B.takes_back)
        (Halts B.Message.letter B.Message.tag_of B.Message.fits B.Message.marked B.runs B.ticks B.takes_back)
        B.ends at s station.old station.new now.old × (clock.new ≡ clock.old) × (now.new ≡ now.old)) }
    ensures shown { IfErr result (IsShown station.new) }
{
    poll_thread(rt, &mut station.list[at], clock, now)
}

// Polls a thread at the last reading, reads the clock, and books the difference of the two.
fn poll_thread<B: Body, C: Clock, R: Wait>(
    rt: &R,
    thread: &mut LightThread<B>,
    clock: &mut C,
    now: &mut Tick,
) -> Result<Polled, Stop>
    requires { thread.old.stopped ≡ false }
    ensures polled { IfOk result (λ p. IsPolled C.readings
        (Polls B.Message.letter B.Message.tag_of B.Message.fits B.Message.marked B.runs B.ticks B.takes_back)
        p thread.old thread.new clock.old clock.new now.old now.new) }
    ensures numbers { IfOk result (λ p. All (λ n. n < length thread.old.ends) p.started.items) }
    ensures stops { IfErr result (λ s. IsHalted C.readings
        (Polls B.Message.letter B.Message.tag_of B.Message.fits B.Message.marked B.runs B.ticks B.takes_back)
        (Halts B.Message.letter B.Message.tag_of B.Message.fits B.Message.marked B.runs B.ticks B.takes_back)
        B.ends s thread.old thread.new now.old × (clock.new ≡ clock.old) × (now.new ≡ now.old)) }
    ensures shown { IfErr result (ThreadStops thread.new) }
{
    let before = *now;
    match thread.poll(rt, before) {
        Ok(polled) => {
            let ticks = read(clock, now) - before;
            thread.book(rt, polled.worked, ticks);
            Ok(polled)
        }
        Err(cause) => Err(stop_of(thread.number(), cause)),
    }
}

// Why the reactor stops where a poll of the thread of this number did.
fn stop_of(thread: u32, cause: lw_thread::Stop) -> Stop
    ensures { IsStopOf thread cause result }
{
    match cause {
        lw_thread::Stop::NoMemory => Stop::NoMemory,
        lw_thread::Stop::Spent { to, count } => Stop::Spent {
            events: false,
            from: thread,
            to,
            count,
        },
    }
}

// Orders each of these threads to be started, of the reactor that is its home.
fn start_all<B: Body, R: Wait>(
    rt: &R,
    station: &mut Station<B>,
    homes: &[u32],
    started: &[u32],
) -> Result<(), Stop>
    requires threads { All (λ t. t < length homes.now) started.now }
    requires homes { All (λ h. h < length station.old.events.ends) homes.now }
    requires wakers { length station.old.sleeper.wakers ≡ length station.old.events.ends }
    ensures sent { OnOk result (StationStarts homes.now started.now station.old station.new) }
    ensures stops { IfErr result (λ s. StationStartsSome homes.now s started.now station.old station.new) }
    ensures shown { IfErr result (IsShown station.new) }
{
    start_each(
        rt,
        started,
        homes,
        &mut station.events,
        &mut station.sleeper,
    )
}

// The same, by the ends of the event rings and the sleeper.
fn start_each<B: Body, R: Wait>(
    rt: &R,
    started: &[u32],
    homes: &[u32],
    events: &mut EventDesk<B>,
    sleeper: &mut Sleeper,
) -> Result<(), Stop>
    requires threads { All (λ t. t < length homes.now) started.now }
    requires homes { All (λ h. h < length events.old.ends) homes.now }
    requires wakers { length sleeper.old.wakers ≡ length events.old.ends }
    ensures sent { OnOk result (OrdersStarts homes.now started.now events.old events.new sleeper.old sleeper.new) }
    ensures stops { IfErr result (λ s. OrdersSomeStarts homes.now s started.now events.old events.new sleeper.old sleeper.new) }
{
    for &thread in started {
        let home = homes[thread as usize];
        order(rt, events, sleeper, home, 0, thread, home)?;
    }
    Ok(())
}
