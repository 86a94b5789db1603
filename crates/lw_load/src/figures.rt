//! What is published of a thread.
use lw_base::Tick;

/// How long a thread was polled in all, in ticks.
#[derive(Clone, Copy, PartialEq, Eq, Debug)]
pub struct Figures {
    /// Polled with work to do.
    pub busy: Tick,
    /// Polled without.
    pub idle: Tick,
}
