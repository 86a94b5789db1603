//! Single pollers.
use lw_base::Tick;

/// An active poller: each poll calls it, unless it is paused.
#[derive(Clone, Copy)]
pub struct Active {
    /// Its number, below 64.
    pub number: u32,
    /// Whether it isn't called until it is resumed.
    pub paused: bool,
}

/// A timed poller that isn't paused. It is called by the first poll that begins at its due time or later.
#[derive(Clone, Copy)]
pub struct Timed {
    /// Its number, below 64.
    pub number: u32,
    /// How long after a call it is due again.
    pub period: Tick,
    /// At most the greatest u64, however long the period is.
    pub due: Tick,
}

/// A timed poller that is paused, and so has no due time.
#[derive(Clone, Copy)]
pub struct Resting {
    /// Its number, below 64.
    pub number: u32,
    /// How long after it is resumed, and after a call, it is due.
    pub period: Tick,
}
