//! The rule of the places: what each seat knows, and what each kind of step tells the seat that makes it.
use crate::place::Place;
use atomic_table::{Join, Play, Split, Table, TableRule};
use std::alloc::Global;
use std::collections::LinkedList;

/// The word that counts the retired threads.
pub(crate) const DONE: usize = 0;

/// The halt word.
pub(crate) const HALT: usize = 1;

/// The word of thread 0. Those of the others follow.
pub(crate) const FIRST_THREAD: usize = 2;

/// A light thread, by its number from 0, and where it stands. Contracts alone see it.
pub struct Stand {
    /// The thread's number.
    pub thread: u32,
    /// Where it stands.
    pub place: Place,
}

/// What a table of places is made for. It is for no caller.
#[derive(Drop)]
pub struct Homes {
    /// Where each thread starts, by its number.
    pub of: Vec<Place>,
    /// How many reactors there are.
    pub reactors: u32,
}

/// What a seat knows. Contracts alone see it: no caller makes one.
pub struct PlaceView {
    /// How many threads there are, 0 for a seat that was joined to another.
    pub threads: u64,
    /// How many reactors there are, 0 for a seat that was joined to another.
    pub reactors: u64,
    /// The threads that it stands for, and where they stand.
    pub stands: LinkedList<Stand>,
    /// How many desks it stands for. All views together stand for one a reactor.
    pub desks: u64,
    /// How many threads these desks have retired.
    pub retired: u64,
    /// How many of them have halted the run.
    pub halted: u64,
    /// How often they looked at a word.
    pub looks: u64,
    /// How many retired threads the last look at their count found.
    pub done_seen: u64,
    /// 1 where the last look at the halt word found the run halted, and else 0.
    pub halt_seen: u64,
    /// At which threads the desk looked, and what it found, in the order of the looks.
    pub found: LinkedList<Stand>,
}

/// The rule that ties the words to the views. It is for no caller.
pub struct PlaceRule;

impl TableRule<(), PlaceView, Homes> for PlaceRule {
    ghost use Rattle.lw_place.specs.PlaceTable.{Placed, first_view};

    ghost holds = { Placed };

    ghost first = { first_view };
}

/// The table: the count of retired threads, the halt word, and one word a thread. It has no slots, and is for no caller.
pub type PlaceTable = Table<(), PlaceView, Homes, PlaceRule, Global>;

/// A thread goes to another place.
pub struct Moving;

impl Play<(), PlaceView> for Moving {
    ghost use Rattle.lw_place.specs.PlaceTable.{Moves};

    ghost then = { Moves };
}

/// A thread that is held starts: it goes to the list of its reactor.
pub struct Starting;

impl Play<(), PlaceView> for Starting {
    ghost use Rattle.lw_place.specs.PlaceTable.{Begins};

    ghost then = { Begins };
}

/// One thread more is counted as retired.
pub struct Retiring;

impl Play<(), PlaceView> for Retiring {
    ghost use Rattle.lw_place.specs.PlaceTable.{Retires};

    ghost then = { Retires };
}

/// The run is halted.
pub struct Halting;

impl Play<(), PlaceView> for Halting {
    ghost use Rattle.lw_place.specs.PlaceTable.{Halts};

    ghost then = { Halts };
}

/// A look at the count of retired threads.
pub struct LookingAtDone;

impl Play<(), PlaceView> for LookingAtDone {
    ghost use Rattle.lw_place.specs.PlaceTable.{LooksAtDone};

    ghost then = { LooksAtDone };
}

/// A look at the halt word.
pub struct LookingAtHalt;

impl Play<(), PlaceView> for LookingAtHalt {
    ghost use Rattle.lw_place.specs.PlaceTable.{LooksAtHalt};

    ghost then = { LooksAtHalt };
}

/// A look at a thread's word.
pub struct Looking;

impl Play<(), PlaceView> for Looking {
    ghost use Rattle.lw_place.specs.PlaceTable.{Looks};

    ghost then = { Looks };
}

/// A load of the count of retired threads by the seat that stands for all desks, at the end of the run.
pub struct LearningDone;

impl Play<(), PlaceView> for LearningDone {
    ghost use Rattle.lw_place.specs.PlaceTable.{LearnsDone};

    ghost then = { LearnsDone };
}

/// A load of the halt word by the same seat.
pub struct LearningHalt;

impl Play<(), PlaceView> for LearningHalt {
    ghost use Rattle.lw_place.specs.PlaceTable.{LearnsHalt};

    ghost then = { LearnsHalt };
}

/// A load of a thread's word by a seat that stands for all threads.
pub struct Learning;

impl Play<(), PlaceView> for Learning {
    ghost use Rattle.lw_place.specs.PlaceTable.{Learns};

    ghost then = { Learns };
}

/// A thread's seat is split off when the table is made, and seats are joined when it is gathered.
pub struct Threads;

impl Split<PlaceView> for Threads {
    ghost use Rattle.lw_place.specs.PlaceTable.{less_first_thread, first_thread};

    ghost left = { less_first_thread };

    ghost right = { first_thread };
}

impl Join<PlaceView> for Threads {
    ghost use Rattle.lw_place.specs.PlaceTable.{joined, spent_view};

    ghost both = { joined };

    ghost spent = { spent_view };
}

/// A desk's seat is split off when the table is made.
pub struct Desks;

impl Split<PlaceView> for Desks {
    ghost use Rattle.lw_place.specs.PlaceTable.{less_one_desk, one_desk};

    ghost left = { less_one_desk };

    ghost right = { one_desk };
}
