//! A seat that stands for any number of threads and desks.
//!
//! The first one stands for all, and the others are dealt out of it. At the end of a run they are gathered into one again,
//! which then knows the words.
ghost use Rattle.std.specs.Prelude.{◌≡◌, ◌≢◌, ℕ, ◌+◌, ◌-◌, ◌<◌, ◌≤◌, true, false, [], ◌∷◌, length, IfOk};
ghost use Rattle.lw_place.specs.PlaceWord.{IsBelow};
ghost use Rattle.lw_place.specs.PlaceTable.{joined, less_first_thread, less_one_desk, times, StandsAt};
ghost use Rattle.lw_place.specs.PlaceSeats.{thread_view, thread_of, places_of, new_desk};

use crate::desk_seat::DeskSeat;
use crate::place::{Place, place_in};
use crate::table::{
    DONE, Desks, FIRST_THREAD, HALT, Learning, LearningDone, LearningHalt, PlaceTable, PlaceView,
    Threads,
};
use crate::thread_seat::ThreadSeat;
use atomic_table::Seat;
use lw_base::NoMemory;
use std::alloc::Global;
use std::marker::Model;
use std::sync::Arc;

#[derive(Drop)]
pub(crate) struct Bundle {
    pub(crate) table: Arc<PlaceTable, Global>,
    pub(crate) seat: Seat<(), PlaceView>,
}

impl Model for Bundle {
    ghost use Rattle.lw_place.specs.PlaceSeats.{BundleEnd, KeepsSeat};
    ghost use Rattle.std.specs.Arc.{arc_value};

    ghost Value = { BundleEnd };

    ghost view = { λ s. record { table = s.seat.table_id; view = s.seat.me.0 } };

    ghost invariant = { λ s. KeepsSeat (arc_value s.table).shared.table_id s.seat };
}

impl Bundle {
    // The seat of the first of these threads, which is at this place.
    pub(crate) fn deal_thread(&mut self, thread: u32, place: Place) -> Result<ThreadSeat, NoMemory>
        requires first { (rest : _) × (self.old.view.stands ≡ record { thread = thread; place = place } ∷ rest) }
        requires number { thread < self.old.view.threads }
        requires below { IsBelow self.old.view.reactors place }
        ensures thread { IfOk result (λ t. t ≡ record {
          places = places_of self.old.table self.old.view;
          thread = thread;
          place = place;
        }) }
        ensures rest { IfOk result (λ _.
            self.new ≡ record self.old { view = less_first_thread self.old.view }) }
    {
        let table = Arc::try_clone(&self.table)?;
        let seat = self.table.shared.split_seat::<Threads>(&mut self.seat);
        Ok(ThreadSeat {
            table,
            seat,
            thread,
            place,
        })
    }

    // One of these desks.
    pub(crate) fn deal_desk(&mut self) -> Result<DeskSeat, NoMemory>
        requires some { 1 ≤ self.old.view.desks }
        requires new { (self.old.view.retired ≡ 0) × (self.old.view.halted ≡ 0) }
        ensures desk { IfOk result (λ d. d ≡ new_desk (places_of self.old.table self.old.view)) }
        ensures rest { IfOk result (λ _.
            self.new ≡ record self.old { view = less_one_desk self.old.view }) }
    {
        let table = Arc::try_clone(&self.table)?;
        let seat = self.table.shared.split_seat::<Desks>(&mut self.seat);
        Ok(DeskSeat { table, seat })
    }

    // Takes another seat in.
    pub(crate) fn take_in(&mut self, other: Bundle)
        requires { other.table ≡ self.old.table }
        ensures { self.new ≡ record self.old { view = joined self.old.view other.view } }
    {
        let Bundle { table: _, seat } = other;
        self.table.shared.join_seat::<Threads>(&mut self.seat, seat);
    }

    // How many threads there are.
    pub(crate) fn threads(&self) -> u32
        ensures { result ≡ self.now.view.threads }
    {
        (self.table.word_count() - FIRST_THREAD) as u32
    }

    // How many threads were retired: where it stands for all desks, what they retired.
    pub(crate) fn done(&mut self) -> u64
        ensures same { self.new ≡ self.old }
        ensures all { self.old.view.desks ≡ self.old.view.reactors → result ≡ self.old.view.retired }
        ensures seen { self.old.view.done_seen ≤ result }
        ensures few { length self.old.view.stands ≤ self.old.view.threads }
        ensures once { (t : ℕ) → t < self.old.view.threads → times t self.old.view.stands ≤ 1 }
    {
        self.table.shared.load::<LearningDone>(&mut self.seat, DONE)
    }

    // Whether the run was halted: where it stands for all desks, whether one of them did so; and where it was seen, it is.
    pub(crate) fn halted(&mut self) -> bool
        ensures same { self.new ≡ self.old }
        ensures all { self.old.view.desks ≡ self.old.view.reactors →
            (result ≡ true → 1 ≤ self.old.view.halted) × (result ≡ false → self.old.view.halted ≡ 0) }
        ensures seen { 1 ≤ self.old.view.halt_seen → result ≡ true }
    {
        self.table.shared.load::<LearningHalt>(&mut self.seat, HALT) == 1
    }

    // Where a thread stands: with all threads, one that it stands for.
    pub(crate) fn place(&mut self, thread: u32) -> Place
        requires all { length self.old.view.stands ≡ self.old.view.threads }
        requires range { thread < self.old.view.threads }
        ensures same { self.new ≡ self.old }
        ensures its { StandsAt self.old.view.stands thread result }
    {
        let word = self
            .table
            .shared
            .load::<Learning>(&mut self.seat, thread as usize + FIRST_THREAD);
        place_in(word)
    }
}
