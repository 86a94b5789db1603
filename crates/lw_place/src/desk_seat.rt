//! A reactor's desk.
ghost use Rattle.std.specs.Prelude.{◌≡◌, ◌+◌, ◌<◌, ◌≤◌, max, true, false, [], ◌∷◌, ◌++◌};
ghost use Rattle.lw_place.specs.PlaceWord.{IsBelow, most_threads};
ghost use Rattle.lw_place.specs.PlaceSeats.{desk_of};

use crate::bundle::Bundle;
use crate::place::{Place, place_in};
use crate::table::{
    DONE, FIRST_THREAD, HALT, Halting, Looking, LookingAtDone, LookingAtHalt, PlaceTable,
    PlaceView, Retiring,
};
use atomic_table::Seat;
use std::alloc::Global;
use std::marker::Model;
use std::sync::Arc;

/// A reactor's seat. It counts the threads that the reactor retired, and looks at the words of all.
#[derive(Drop)]
pub struct DeskSeat {
    pub(crate) table: Arc<PlaceTable, Global>,
    pub(crate) seat: Seat<(), PlaceView>,
}

impl Model for DeskSeat {
    ghost use Rattle.lw_place.specs.PlaceSeats.{DeskEnd, KeepsDesk, desk_of};
    ghost use Rattle.std.specs.Arc.{arc_value};

    ghost Value = { DeskEnd };

    ghost view = { λ s. desk_of s.seat.table_id s.seat.me.0 };

    ghost invariant = { λ s. KeepsDesk (arc_value s.table).shared.table_id s.seat };
}

impl DeskSeat {
    /// Counts one more thread as retired. A desk retires 127 at most.
    pub fn retire(&mut self)
        requires { self.old.retired < most_threads }
        ensures { self.new ≡ record self.old { retired = self.old.retired + 1 } }
    {
        self.table
            .shared
            .fetch_add::<Retiring>(&mut self.seat, DONE, 1);
    }

    /// How many threads all desks have retired. It is one load.
    ///
    /// It is never less than this desk has retired itself, or has seen before.
    pub fn look_done(&mut self) -> u64
        ensures seen { self.new ≡ record self.old {
          looks = self.old.looks + 1;
          done_seen = result;
        } }
        ensures least { (self.old.retired ≤ result) × (self.old.done_seen ≤ result) }
    {
        self.table
            .shared
            .load::<LookingAtDone>(&mut self.seat, DONE)
    }

    /// Where a thread of these places stands. It is one load.
    pub fn look(&mut self, thread: u32) -> Place
        requires { thread < self.old.places.threads }
        ensures seen { self.new ≡ record self.old {
          looks = self.old.looks + 1;
          found = self.old.found ++ record { thread = thread; place = result } ∷ [];
        } }
        ensures below { IsBelow self.old.places.reactors result }
    {
        let word = self
            .table
            .shared
            .load::<Looking>(&mut self.seat, thread as usize + FIRST_THREAD);
        place_in(word)
    }

    /// Whether the run is halted. It is one load.
    ///
    /// Once this desk has halted the run, or has seen it halted, it is.
    pub fn halted(&mut self) -> bool
        ensures halted { result ≡ true →
            self.new ≡ record self.old { looks = self.old.looks + 1; halt_seen = 1 } }
        ensures going { result ≡ false →
            (self.new ≡ record self.old { looks = self.old.looks + 1; halt_seen = 0 })
            × (self.old.halted ≡ 0)
            × (self.old.halt_seen ≡ 0) }
    {
        self.table
            .shared
            .load::<LookingAtHalt>(&mut self.seat, HALT)
            == 1
    }

    /// Halts the run. From then on this desk finds it halted, and `gather` tells it.
    pub fn halt(&mut self)
        ensures { self.new ≡ record self.old { halted = 1 } }
    {
        self.table.shared.store::<Halting>(&mut self.seat, HALT, 1);
    }

    // The same seat, to be gathered.
    pub(crate) fn into_bundle(self) -> Bundle
        ensures desk { desk_of result.table result.view ≡ self }
        ensures one_desk { result.view.desks ≡ 1 }
        ensures no_threads { result.view.stands ≡ [] }
    {
        let DeskSeat { table, seat } = self;
        Bundle { table, seat }
    }
}
