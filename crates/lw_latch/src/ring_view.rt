//! The rule of a ring's latch: what each seat knows, and what each kind of step tells the seat that makes it.
use atomic_table::{Join, Play, Split, Table, TableRule};
use std::alloc::Global;

/// What a seat of a ring's latch knows. Contracts alone see it: no caller makes one.
///
/// Whether something is so is a count of 0 or 1 here, so that the views can be added up.
pub struct RingView {
    /// How many senders it stands for. All views together stand for the most that a latch has.
    pub parts: u64,
    /// Whether it is the receiver's.
    pub receives: u64,
    /// Whether it is inside, between `enter` and `finish`, `cancel` or the step back.
    pub inside: u64,
    /// How many messages it has finished.
    pub finished: u64,
    /// How often it found the latch closed.
    pub found: u64,
    /// Whether it has closed the latch.
    pub closed: u64,
    /// At how many finished messages it did so.
    pub count: u64,
    /// How often it tried to close in vain.
    pub tries: u64,
    /// The word that the last such try found.
    pub seen: u64,
}

/// The rule that ties the word to the views. It is for no caller.
pub struct RingRule;

impl TableRule<(), RingView, ()> for RingRule {
    ghost use Rattle.lw_latch.specs.RingWord.{first_view, Latched};

    ghost holds = { λ _ s. Latched s };

    ghost first = { λ _. first_view };
}

/// The latch's table: its one word and unused ones around it, without slots. It is for no caller.
pub type RingTable = Table<(), RingView, (), RingRule, Global>;

pub struct Entering;

impl Play<(), RingView> for Entering {
    ghost use Rattle.lw_latch.specs.RingWord.{Enters};

    ghost then = { Enters };
}

/// A step back: of a cancelled send, and of one that found the latch closed.
pub struct Leaving;

impl Play<(), RingView> for Leaving {
    ghost use Rattle.lw_latch.specs.RingWord.{Leaves};

    ghost then = { Leaves };
}

pub struct Finishing;

impl Play<(), RingView> for Finishing {
    ghost use Rattle.lw_latch.specs.RingWord.{Finishes};

    ghost then = { Finishes };
}

/// A try to close.
pub struct Shutting;

impl Play<(), RingView> for Shutting {
    ghost use Rattle.lw_latch.specs.RingWord.{TriesToClose};

    ghost then = { TriesToClose };
}

/// A load by a seat that stands for all senders.
pub struct Looking;

impl Play<(), RingView> for Looking {
    ghost use Rattle.lw_latch.specs.RingWord.{Learns};

    ghost then = { Learns };
}

/// Seats are split off when a latch is made, and joined when it is settled.
pub struct Seats;

impl Split<RingView> for Seats {
    ghost use Rattle.lw_latch.specs.RingWord.{less_one_part, sender_view};

    ghost left = { less_one_part };

    ghost right = { λ _. sender_view };
}

impl Join<RingView> for Seats {
    ghost use Rattle.lw_latch.specs.RingWord.{joined, spent_view};

    ghost both = { joined };

    ghost spent = { spent_view };
}
