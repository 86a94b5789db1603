//! What every crate names: threads and reactors, messages and their tags, moves, what a run comes to, and the traits of
//! the outside.
#![tactic(auto)]

mod ends;
mod items;
mod memory;
mod message;
mod moves;
mod names;
mod naming;
mod outside;
mod tagged;

pub use ends::{DeviceEnd, Home};
pub use items::{Items, Text};
pub use memory::{ListClock, MemSink, MemSource, OpenGate};
pub use message::{Mark, Tag, What};
pub use moves::{Hop, Limits, Order, Round, Row, Scheduler};
pub use names::{Failed, NoMemory, ReactorId, ThreadId, Tick};
pub use naming::Naming;
pub use outside::{Clock, Gate, Sink, Source};
pub use tagged::Tagged;
