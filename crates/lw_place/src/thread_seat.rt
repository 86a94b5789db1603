//! A light thread's seat.
ghost use Rattle.std.specs.Prelude.{◌≡◌, ℕ, ◌<◌};
ghost use Rattle.lw_place.specs.PlaceWord.{IsBelow};
ghost use Rattle.lw_place.specs.PlaceSeats.{IsList, IsEvent, IsHeld, MayLeave, thread_view, stand};

use crate::bundle::Bundle;
use crate::place::Place;
use crate::table::{FIRST_THREAD, Moving, PlaceTable, PlaceView, Starting};
use atomic_table::Seat;
use std::alloc::Global;
use std::marker::Model;
use std::sync::Arc;

/// The one seat of a light thread. It goes where the thread goes, and alone writes the thread's word.
#[derive(Drop)]
pub struct ThreadSeat {
    pub(crate) table: Arc<PlaceTable, Global>,
    pub(crate) seat: Seat<(), PlaceView>,
    pub(crate) thread: u32,
    pub(crate) place: Place,
}

impl Model for ThreadSeat {
    ghost use Rattle.lw_place.specs.PlaceSeats.{ThreadEnd, KeepsThread, places_of};
    ghost use Rattle.std.specs.Arc.{arc_value};

    ghost Value = { ThreadEnd };

    ghost view = { λ s. record {
      places = places_of s.seat.table_id s.seat.me.0;
      thread = s.thread;
      place = s.place;
    } };

    ghost invariant = { λ s. KeepsThread (arc_value s.table).shared.table_id s.seat s.thread s.place };
}

impl ThreadSeat {
    /// The thread leaves for a reactor, one of those of its places: it is in an event to it from now on. It has neither ended,
    /// nor is it held.
    pub fn leave_for(&mut self, to: u32)
        requires place { MayLeave self.old.place }
        requires range { to < self.old.places.reactors }
        ensures { self.new ≡ record self.old { place = Place.Event to } }
    {
        self.move_to(Place::Event(to));
    }

    /// The thread arrives: it is in the list of the reactor that its event went to.
    pub fn arrive(&mut self)
        requires { IsEvent self.old.place }
        ensures { (reactor : ℕ) → self.old.place ≡ Place.Event reactor →
            self.new ≡ record self.old { place = Place.List reactor } }
    {
        match self.place {
            Place::Event(reactor) => self.move_to(Place::List(reactor)),
            _ => unreachable!(),
        }
    }

    /// The thread, which a reactor holds, starts: it is in that reactor's list from now on.
    pub fn start(&mut self)
        requires { IsHeld self.old.place }
        ensures { (reactor : ℕ) → self.old.place ≡ Place.Held reactor →
            self.new ≡ record self.old { place = Place.List reactor } }
    {
        match self.place {
            Place::Held(reactor) => self.begin(reactor),
            _ => unreachable!(),
        }
    }

    /// The thread, which is in a reactor's list, has ended.
    pub fn end(&mut self)
        requires { IsList self.old.place }
        ensures { self.new ≡ record self.old { place = Place.Ended } }
    {
        self.move_to(Place::Ended);
    }

    /// Where the thread stands, which is what its word says.
    pub fn place(&self) -> Place
        ensures place { result ≡ self.now.place }
        ensures below { IsBelow self.now.places.reactors result }
    {
        self.place
    }

    /// The thread's number, one of those of its places.
    pub fn thread(&self) -> u32
        ensures thread { result ≡ self.now.thread }
        ensures below { result < self.now.places.threads }
    {
        self.thread
    }

    // One store of the thread's word.
    fn move_to(&mut self, place: Place)
        requires { IsBelow self.old.places.reactors place }
        ensures { self.new ≡ record self.old { place = place } }
    {
        let word = self.thread as usize + FIRST_THREAD;
        self.table
            .shared
            .store::<Moving>(&mut self.seat, word, place.word());
        self.place = place;
    }

    // One store of the word of a thread that this reactor holds.
    fn begin(&mut self, reactor: u32)
        requires { self.old.place ≡ Place.Held reactor }
        ensures { self.new ≡ record self.old { place = Place.List reactor } }
    {
        let word = self.thread as usize + FIRST_THREAD;
        let place = Place::List(reactor);
        self.table
            .shared
            .store::<Starting>(&mut self.seat, word, place.word());
        self.place = place;
    }

    // The same seat, to be gathered.
    pub(crate) fn into_bundle(self) -> Bundle
        ensures { (result.table ≡ self.places.table)
            × (result.view ≡ thread_view self.places.threads self.places.reactors (stand self)) }
    {
        let ThreadSeat {
            table,
            seat,
            thread: _,
            place: _,
        } = self;
        Bundle { table, seat }
    }
}
