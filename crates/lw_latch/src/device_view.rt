//! The rule of a device's latch: what each seat knows, and what each kind of step tells the seat that makes it.
use atomic_table::{Join, Play, Split, Table, TableRule};
use std::alloc::Global;
use std::collections::LinkedList;

/// What a seat of a device's latch knows. Contracts alone see it.
///
/// Whether something is so is a count of 0 or 1 here, so that the views can be added up.
pub struct DeviceView {
    /// How many seats the latch was made with. It is 0 for a seat that was joined to another.
    pub all: u64,
    /// How many of them it stands for: itself, and those that it took in.
    pub seats: u64,
    /// The ordinals of the channels that it was given, and those that the seats which it took in had been given.
    pub ordinals: LinkedList<u64>,
    /// How often its own `give` was called.
    pub gives: u64,
    /// Whether it holds a channel, and whether it has a visit.
    pub channel: u64,
    pub visit: u64,
    /// Whether it is taking back a `give`, or a `hold`, that found the latch shut.
    pub backing: u64,
    pub leaving: u64,
    /// How often its own `look` was called.
    pub looks: u64,
    /// How often it found the latch shut.
    pub found: u64,
    /// How often its `give`, `hold` or `look` found the latch open, and that of the seats which it took in.
    pub opens: u64,
    /// Whether it began the unregistration.
    pub begun: u64,
    /// How many channels had been given when it did so, and how often the latch had been found open by all seats.
    pub count: u64,
    pub opens_then: u64,
    /// Whether it has fired.
    pub fired: u64,
    /// How often it tried to fire in vain, and the word that its last try found, in vain or not.
    pub tries: u64,
    pub seen: u64,
}

/// The rule that ties the word to the views.
pub struct DeviceRule;

impl TableRule<(), DeviceView, u32> for DeviceRule {
    ghost use Rattle.lw_latch.specs.DeviceWord.{first_view, Tied};

    ghost holds = { λ seats s. Tied seats s };

    ghost first = { first_view };
}

/// The table of one word, without slots. It is told how many seats there are.
pub type DeviceTable = Table<(), DeviceView, u32, DeviceRule, Global>;

/// A channel is given, unless the latch is shut.
pub struct Giving;

impl Play<(), DeviceView> for Giving {
    ghost use Rattle.lw_latch.specs.DeviceWord.{Gives};

    ghost then = { Gives };
}

/// The step back of a `give` that found the latch shut.
pub struct TakingBack;

impl Play<(), DeviceView> for TakingBack {
    ghost use Rattle.lw_latch.specs.DeviceWord.{TakesBack};

    ghost then = { TakesBack };
}

/// A visit begins, unless the latch is shut.
pub struct Holding;

impl Play<(), DeviceView> for Holding {
    ghost use Rattle.lw_latch.specs.DeviceWord.{Holds};

    ghost then = { Holds };
}

/// The step back of a `hold` that found the latch shut.
pub struct LettingGo;

impl Play<(), DeviceView> for LettingGo {
    ghost use Rattle.lw_latch.specs.DeviceWord.{LetsGo};

    ghost then = { LetsGo };
}

/// The seat's channel is destroyed.
pub struct Releasing;

impl Play<(), DeviceView> for Releasing {
    ghost use Rattle.lw_latch.specs.DeviceWord.{Releases};

    ghost then = { Releases };
}

/// The seat's visit ends.
pub struct Unholding;

impl Play<(), DeviceView> for Unholding {
    ghost use Rattle.lw_latch.specs.DeviceWord.{Unholds};

    ghost then = { Unholds };
}

/// A look whether the latch is shut.
pub struct LookingAtShut;

impl Play<(), DeviceView> for LookingAtShut {
    ghost use Rattle.lw_latch.specs.DeviceWord.{LooksAtShut};

    ghost then = { LooksAtShut };
}

/// The latch is shut, unless it is.
pub struct Beginning;

impl Play<(), DeviceView> for Beginning {
    ghost use Rattle.lw_latch.specs.DeviceWord.{Begins};

    ghost then = { Begins };
}

/// A try to fire.
pub struct TryingToFire;

impl Play<(), DeviceView> for TryingToFire {
    ghost use Rattle.lw_latch.specs.DeviceWord.{TriesToFire};

    ghost then = { TriesToFire };
}

/// A load by a seat that stands for all.
pub struct LearningAll;

impl Play<(), DeviceView> for LearningAll {
    ghost use Rattle.lw_latch.specs.DeviceWord.{LearnsAll};

    ghost then = { LearnsAll };
}

/// Seats are split off when a latch is made, and joined when one is taken in.
pub struct DeviceSeats;

impl Split<DeviceView> for DeviceSeats {
    ghost use Rattle.lw_latch.specs.DeviceWord.{less_one_seat, one_seat};

    ghost left = { less_one_seat };

    ghost right = { one_seat };
}

impl Join<DeviceView> for DeviceSeats {
    ghost use Rattle.lw_latch.specs.DeviceWord.{both_views, spent_device};

    ghost both = { both_views };

    ghost spent = { spent_device };
}
