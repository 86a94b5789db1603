//! What callers name.
use thiserror::Error;

/// A live poller, by its number: the least below 64 that was free when it was added.
#[derive(Clone, Copy, PartialEq, Eq, Debug)]
pub struct PollerId(pub u32);

/// Why a call of a set changed nothing.
#[derive(Clone, Copy, PartialEq, Eq, Debug, Error)]
pub enum PollerRefusal {
    /// 64 pollers are live, so no number is free.
    #[error("64 pollers are live")]
    Full,
    /// No live poller has the number.
    #[error("no live poller has this number")]
    Unknown,
    /// There was no memory.
    #[error("there was no memory")]
    NoMemory,
}
