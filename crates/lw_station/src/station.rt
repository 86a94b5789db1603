//! Where the light threads of a reactor stand, and how they come and go: its list, those that it holds, and its ends of the event
//! rings.
ghost use Rattle.std.specs.Prelude.{◌≡◌, ◌⊎◌, ℕ, ◌+◌, ◌<◌, ◌≤◌, ◌↔◌, List, [], ◌∷◌, ◌++◌, length, IfErr, IfNone, IfOk, IfSome, IsTrue, OnErr, OnOk, remove};
ghost use Rattle.lw_base.specs.Letters.{FitsRing};
ghost use Rattle.lw_thread.specs.Threads.{IsAbove, last_of};
ghost use Rattle.lw_event.specs.Events.{event_fits};
ghost use Rattle.lw_event.specs.Desks.{IsStill};
ghost use Rattle.lw_station.specs.Stations.{IsStationOf, MayAllGo};
ghost use Rattle.lw_station.specs.Handling.{Departs, DepartsNot, Handles, HandlesAll, HandlesNext, HandlesNot, HandlingStops, IsArrival, IsAt, IsNone, IsPast, Obeys, ObeysNot, Starts, StillArrives, StopsNext, arrived, at_place, departure};
ghost use Rattle.lw_station.specs.Stopping.{DeskStops};

use crate::posting::{post, stop_of};
use crate::stop::Stop;
use lw_base::{Hop, NoMemory};
use lw_event::{Event, EventDesk, EventRefusal, Sleeper};
use lw_place::Place;
use lw_thread::{Body, LightThread};
use std::marker::Model;
use std::sync::Wait;

/// How many events a turn takes at most.
const MOST_EVENTS: usize = 8;

/// A reactor's station: its light threads, with what they come and go by.
#[derive(Drop)]
pub struct Station<B: Body> {
    /// The reactor's number.
    pub number: u32,
    /// The threads that the reactor polls, in the order in which it polls them. Each stands at the place `List` of its number.
    pub list: Vec<LightThread<B>>,
    /// The threads that it holds until they are started. Each stands at the place `Held` of its number.
    pub held: Vec<LightThread<B>>,
    /// Its ends of the event rings, with the events that were taken and not handled.
    pub events: EventDesk<B>,
    /// Its right to sleep, and to wake each reactor.
    pub sleeper: Sleeper,
}

impl<B: Body> Model for Station<B> {
    ghost use Rattle.std.specs.Prelude.{vec_capacity};
    ghost use Rattle.lw_station.specs.Stations.{StationEnd};

    ghost Value = { StationEnd B.Message.Letter B.Message.Family B.Message B };

    ghost view = { λ s. record {
      number = s.number;
      list = s.list.items;
      room = vec_capacity s.list;
      held = s.held.items;
      events = s.events;
      sleeper = s.sleeper;
    } };
}

impl<B: Body> Station<B> {
    /// Takes the events that wait, eight at most, and handles them in order. How many there were.
    ///
    /// A thread that arrives stands at the end of the list, and its hop is noted. An order of a round above 0 sends the thread that
    /// it names to the reactor that it names, and wakes that one; it does nothing where the thread isn't in this list, or the
    /// round isn't above that of its last hop. An order of round 0 starts the thread that it names, at the end of the list; it does
    /// nothing where the thread isn't held here.
    ///
    /// The station is one of a run's reactor, each thread of its list may be polled, and all events that were taken before were
    /// handled. It stops as `Spent`, naming the end, exactly where an arrival can't be sent since 2^40 events were sent by that
    /// end; then the thread goes back to the end of the list. It stops as `NoMemory` for want of memory: before an event was
    /// taken, or at an event; then the thread that has arrived, or was to leave, stands at the end of the list. Events behind it
    /// stay in `events`.
    pub fn take_events<R: Wait>(&mut self, rt: &R) -> Result<usize, Stop>
        requires going { (run : _) × (homes : List ℕ) × IsStationOf run homes self.old × MayAllGo homes self.old }
        requires none { self.old.events.batch ≡ [] }
        ensures handled { IfOk result (λ n. (h : HandlesAll self.old self.new) × (n ≡ length h.batch)) }
        ensures stops { IfErr result (λ s. HandlingStops s self.old self.new) }
        ensures shown { IfErr result (DeskStops self.new.events) }
        ensures none { OnOk result (self.new.events.batch ≡ []) }
        ensures kept { (run : _) (homes : List ℕ) → IsStationOf run homes self.old → IsStationOf run homes self.new }
        ensures going { OnOk result ((run : _) (homes : List ℕ) → IsStationOf run homes self.old → MayAllGo homes self.old →
            MayAllGo homes self.new) }
        ensures still { (self.new.number ≡ self.old.number) × IsStill self.old.events self.new.events }
    {
        // Room for each thread that may come or start: none is taken for which there is none.
        self.list.reserve(MOST_EVENTS)?;
        let count = self.events.take(rt);
        for _ in 0..count {
            self.handle_next(rt)?;
        }
        Ok(count)
    }

    // Handles the next event that was taken.
    fn handle_next<R: Wait>(&mut self, rt: &R) -> Result<(), Stop>
        requires station { (run : _) × (homes : List ℕ) × IsStationOf run homes self.old × MayAllGo homes self.old }
        requires some { 1 ≤ length self.old.events.batch }
        requires room { length self.old.list < self.old.room }
        ensures handled { OnOk result ((event : _) × HandlesNext event self.old self.new) }
        ensures stops { IfErr result (λ s. (event : _) × StopsNext event s self.old self.new) }
    {
        let Some(event) = self.events.next() else {
            unreachable!()
        };
        self.handle(rt, event)
    }

    // Handles one event.
    fn handle<R: Wait>(&mut self, rt: &R, event: Event<B>) -> Result<(), Stop>
        requires station { (run : _) × (homes : List ℕ) × IsStationOf run homes self.old × MayAllGo homes self.old }
        requires fits { FitsRing event_fits self.old.number self.old.events.recv.family event }
        requires room { length self.old.list < self.old.room }
        ensures handled { OnOk result (Handles event self.old self.new) }
        ensures stops { IfErr result (λ s. HandlesNot event s self.old self.new) }
    {
        match event {
            Event::Arrive {
                sender: _,
                number: _,
                round,
                id: _,
                thread,
            } => Ok(self.arrive(round, thread)?),
            Event::Order {
                sender: _,
                number: _,
                round,
                thread,
                to,
            } => self.obey(rt, round, thread, to),
        }
    }

    // A thread arrives: it stands at the end of the list, and its hop is noted. Without memory for the hop it stands there too.
    fn arrive(&mut self, round: u32, thread: LightThread<B>) -> Result<(), NoMemory>
        requires arrives { StillArrives self.old.number round thread }
        requires room { length self.old.list < self.old.room }
        ensures arrived { OnOk result (self.new ≡ record self.old {
          list = self.old.list ++ arrived self.old.number round thread ∷ [];
        }) }
        ensures unnoted { OnErr result (self.new ≡ record self.old {
          list = self.old.list ++ at_place (Place.List self.old.number) thread ∷ [];
        }) }
    {
        let mut newcomer = thread;
        newcomer.arrive();
        let noted = newcomer.add_hop(Hop {
            round,
            reactor: self.number,
        });
        self.list.push_reserved(newcomer);
        noted
    }

    // Obeys an order: in round 0, to start its thread; in another, to send it away.
    fn obey<R: Wait>(&mut self, rt: &R, round: u32, thread: u32, to: u32) -> Result<(), Stop>
        requires station { (run : _) × (homes : List ℕ) × IsStationOf run homes self.old × MayAllGo homes self.old }
        requires range { to < length self.old.events.ends }
        requires room { length self.old.list < self.old.room }
        ensures obeyed { OnOk result (Obeys round thread to self.old self.new) }
        ensures stops { IfErr result (λ s. ObeysNot round thread to s self.old self.new) }
    {
        if round == 0 {
            self.start(thread);
            Ok(())
        } else {
            self.send_away(rt, round, thread, to)
        }
    }

    // The thread of this number starts, where it is held, at the end of the list.
    fn start(&mut self, number: u32)
        requires station { (run : _) × (homes : List ℕ) × IsStationOf run homes self.old }
        requires room { length self.old.list < self.old.room }
        ensures { Starts number self.old self.new ⊎ (IsNone self.old.held number × (self.new ≡ self.old)) }
    {
        let Some(at) = position(self.held.as_slice(), number) else {
            return;
        };
        let mut thread = self.held.remove(at);
        thread.start();
        self.list.push_reserved(thread);
    }

    // Sends the thread of this number away, where it is in the list and the round is above that of its last hop.
    fn send_away<R: Wait>(&mut self, rt: &R, round: u32, number: u32, to: u32) -> Result<(), Stop>
        requires station { (run : _) × (homes : List ℕ) × IsStationOf run homes self.old × MayAllGo homes self.old }
        requires range { to < length self.old.events.ends }
        ensures sent { OnOk result (Departs round number to self.old self.new
            ⊎ (IsPast round number self.old × (self.new ≡ self.old))) }
        ensures stops { IfErr result (λ s. DepartsNot round number to s self.old self.new) }
    {
        let Some(at) = position(self.list.as_slice(), number) else {
            return Ok(());
        };
        if is_above(round, self.list[at].last_hop()) {
            self.depart(rt, at, round, to)
        } else {
            Ok(())
        }
    }

    // The thread at this place of the list leaves it for another reactor, as it is. Its arrival there.
    fn leaving(&mut self, at: usize, round: u32, to: u32) -> Event<B>
        requires station { (run : _) × (homes : List ℕ) × IsStationOf run homes self.old }
        requires range { to < length self.old.events.ends }
        requires there { (number : ℕ) × (thread : _) × IsAt self.old.list number at thread }
        ensures event { (number : ℕ) (thread : _) → IsAt self.old.list number at thread → result ≡ departure round to thread }
        ensures left { self.new ≡ record self.old { list = remove self.old.list at } }
        ensures room { length self.new.list < self.new.room }
    {
        let mut thread = self.list.remove(at);
        thread.leave_for(to);
        Event::arrive(round, thread)
    }

    // The thread at this place of the list leaves for another reactor. Where its event is refused it goes back to the end of the
    // list.
    fn depart<R: Wait>(&mut self, rt: &R, at: usize, round: u32, to: u32) -> Result<(), Stop>
        requires station { (run : _) × (homes : List ℕ) × IsStationOf run homes self.old × MayAllGo homes self.old }
        requires range { to < length self.old.events.ends }
        requires there { (number : ℕ) × (thread : _) × IsAt self.old.list number at thread × IsAbove round (last_of thread.trail) }
        ensures left { OnOk result ((number : ℕ) (thread : _) → IsAt self.old.list number at thread →
            Departs round number to self.old self.new) }
        ensures stops { IfErr result (λ s. (number : ℕ) (thread : _) → IsAt self.old.list number at thread →
            DepartsNot round number to s self.old self.new) }
    {
        let event = self.leaving(at, round, to);
        match post(rt, &mut self.events, &mut self.sleeper, to, event) {
            Ok(()) => Ok(()),
            Err(refusal) => {
                let stop = stop_of(self.number, to, &refusal);
                let mut back = thread_of(refusal);
                back.leave_for(self.number);
                back.arrive();
                self.list.push_reserved(back);
                Err(stop)
            }
        }
    }
}

// The thread whose arrival was refused.
fn thread_of<B: Body>(refusal: EventRefusal<B>) -> LightThread<B>
    requires { (thread : _) × IsArrival refusal thread }
    ensures { IsArrival refusal result }
{
    let event = match refusal {
        EventRefusal::Spent { event, count: _ } => event,
        EventRefusal::NoMemory { event } => event,
    };
    match event {
        Event::Arrive {
            sender: _,
            number: _,
            round: _,
            id: _,
            thread,
        } => thread,
        Event::Order { .. } => unreachable!(),
    }
}

// Whether a round is above that of a thread's last hop, where it has one.
fn is_above(round: u32, hop: Option<Hop>) -> bool
    ensures { IsTrue result ↔ IsAbove round hop }
{
    match hop {
        Some(hop) => hop.round < round,
        None => true,
    }
}

// The place of the thread of this number, where it is among these.
fn position<B: Body>(threads: &[LightThread<B>], number: u32) -> Option<usize>
    ensures found { IfSome result (λ at. (thread : _) × IsAt threads.now number at thread) }
    ensures none { IfNone result (IsNone threads.now number) }
{
    for (at, thread) in threads.iter().enumerate() {
        if thread.number() == number {
            return Some(at);
        }
    }
    None
}

fn is_send<X: Send>(_x: &X) {}

/// A station crosses to another machine thread. It is for no caller.
pub fn stations_are_send<B: Body>(station: &Station<B>) {
    is_send(station)
}
