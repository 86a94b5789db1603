//! The rule of a sleeper's parker: what each view of it knows, and what each kind of step tells the view that makes it.
use crossbeam_utils::rule::{Outcome, Protocol};
use crossbeam_utils::sync::parker;
use crossbeam_utils::sync::parker::{RuledParker, RuledUnparker};
use std::alloc::Global;

/// What a view of a parker knows. Contracts alone see it.
pub struct SleepView {
    /// How often it woke the sleeper.
    pub woke: u64,
    /// How often it slept: how many wakes it took.
    pub slept: u64,
}

/// The rule: a wake that is to be taken was given, and none is taken twice.
pub struct SleepRule;

impl Protocol<bool, SleepView> for SleepRule {
    ghost use Rattle.lw_event.specs.SleepRule.{Kept, first_view};

    ghost holds = { Kept };

    ghost first = { first_view };
}

/// The sleeper is woken.
pub struct Waking;

impl Outcome<bool, SleepView> for Waking {
    ghost use Rattle.lw_event.specs.SleepRule.{Wakes};

    ghost then = { Wakes };
}

/// A wake is taken.
pub struct Sleeping;

impl Outcome<bool, SleepView> for Sleeping {
    ghost use Rattle.lw_event.specs.SleepRule.{Sleeps};

    ghost then = { Sleeps };
}

/// The parker of one reactor.
pub type Parker = RuledParker<SleepView, SleepRule, Global>;

/// What wakes it.
pub type Unparker = RuledUnparker<SleepView, SleepRule, Global>;

/// A view of a parker, with the right to make its steps.
pub type Pass = parker::Pass<SleepView>;
