//! How light threads move between reactors: the scheduler, what a round measures and orders, and each thread's hops.
ghost use Rattle.std.specs.Prelude.{◌≡◌};
ghost use Rattle.lw_base.specs.Limits.{standard};

use crate::items::Items;

/// Whether light threads may move between reactors.
#[derive(Copy, Clone, Drop)]
pub enum Scheduler {
    /// Each thread stays on its home reactor, and there are no rounds.
    Static,
    /// Rounds measure the load and order threads to move.
    Dynamic,
}

/// A move of a thread to a reactor, with the number of the round that ordered it.
#[derive(Copy, Clone, Drop)]
pub struct Hop {
    pub round: u32,
    pub reactor: u32,
}

/// A round of the dynamic scheduler: its number from 1, its time, what it measured and what it ordered.
#[derive(Drop)]
pub struct Round {
    pub number: u32,
    pub time: u64,
    pub rows: Items<Row>,
    pub orders: Items<Order>,
}

/// A thread in a round: the reactor it stood on, and its busy and idle ticks since the round before.
#[derive(Copy, Clone, Drop)]
pub struct Row {
    pub thread: u32,
    pub reactor: u32,
    pub busy: u64,
    pub idle: u64,
}

/// The numbers of the plan of a round, in parts of 100.
#[derive(Copy, Clone, Drop)]
pub struct Limits {
    /// A thread with less load than this goes to reactor 0.
    pub load: u32,
    /// A reactor has room for a thread where the planned load and the thread's are together at most this.
    pub core: u32,
    /// A reactor with more load than this gives threads away.
    pub busy: u32,
}

impl Limits {
    /// The limits that every reactor and the judge go by: 20, 80 and 95.
    pub fn standard() -> Self
        ensures { result ≡ standard }
    {
        Limits {
            load: 20,
            core: 80,
            busy: 95,
        }
    }
}

/// The order of a round that a thread moves to a reactor.
#[derive(Copy, Clone, Drop)]
pub struct Order {
    pub thread: u32,
    pub to: u32,
}
