//! The options of a run.

use lw_base::Tick;
use lw_model::Scheduler;

/// How a script is to be run. docs/usage.md has the words that set it.
#[derive(Copy, Clone, Drop)]
pub struct Options {
    pub scheduler: Scheduler,
    /// How many reactors there are, 1 to 16.
    pub reactors: u32,
    /// How many of them run beside the caller, each on a machine thread of its own; fewer than there are.
    pub beside: u32,
    /// The least time between two rounds, 1 to 1,000,000,000,000 ticks.
    pub period: Tick,
}
