//! The rule of a load cell: what each view of it knows, and what each kind of step tells the view that makes it.
use atomic_table::Split;
use crossbeam_utils::atomic::seq_cell;
use crossbeam_utils::atomic::seq_cell::RuledSeqCell;
use crossbeam_utils::rule::{Outcome, Protocol};

/// What a view of a cell knows. Contracts alone see it.
pub struct LoadView {
    /// 1 for the view that publishes, 0 for one that reads. All views together have 1.
    pub writers: u64,
    /// The busy ticks that it published last, or found last. 0 before the first.
    pub busy: u64,
    /// The idle ticks of the same pair.
    pub idle: u64,
    /// How often it stored a pair in the cell.
    pub stores: u64,
    /// How often it loaded the cell.
    pub loads: u64,
}

/// The rule that ties the cell to the views.
pub struct LoadRule;

impl Protocol<[u64; 2], LoadView> for LoadRule {
    ghost use Rattle.lw_load.specs.LoadRule.{Kept, first_view};

    ghost holds = { Kept };

    ghost first = { first_view };
}

/// A pair is published.
pub struct Publishing;

impl Outcome<[u64; 2], LoadView> for Publishing {
    ghost use Rattle.lw_load.specs.LoadRule.{Publishes};

    ghost then = { Publishes };
}

/// The cell is read.
pub struct Reading;

impl Outcome<[u64; 2], LoadView> for Reading {
    ghost use Rattle.lw_load.specs.LoadRule.{Reads};

    ghost then = { Reads };
}

/// The reader's view is split off when the cell is made.
pub struct Making;

impl Split<LoadView> for Making {
    ghost use Rattle.lw_load.specs.LoadRule.{unread};

    ghost left = { λ v. v };

    ghost right = { λ _. unread };
}

/// The busy ticks, and then the idle ones.
pub type LoadCell = RuledSeqCell<[u64; 2], LoadView, LoadRule, 2>;

/// A view of a cell, with the right to make its steps.
pub type Pass = seq_cell::Pass<[u64; 2], LoadView>;
