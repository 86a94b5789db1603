//! Reactors. A reactor polls the light threads of its list, one turn after another, and sends threads to other reactors by
//! events.
//!
//! A turn reads the clock, makes a round where one is due, handles the events that wait, polls each thread of the list, and
//! looks whether the run is over. Each light thread is one owned value: in one reactor's list, held by one, in one event, or
//! among the remains of the reactor in whose list it ended.
#![tactic(auto)]

mod polls;
mod reactor;
mod rounds;
mod turn;
mod worker;

pub use reactor::{Parts, Reactor, Span};
