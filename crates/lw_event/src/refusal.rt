//! Why an event was not sent.
use crate::event::Event;
use lw_thread::Body;

/// Why an event was not sent. It comes back, as it was given.
#[derive(Drop)]
pub enum EventRefusal<B: Body> {
    /// The end to that reactor has sent `count` events, 2^40, the most that it can.
    Spent { event: Event<B>, count: u64 },
    /// There was no memory for it.
    NoMemory { event: Event<B> },
}
