//! Events: what one reactor sends to another, the rings by which it goes, and how a reactor sleeps until it is woken.
//!
//! Each reactor receives from an open ring, which is never closed, and has an end to the ring of each. A light thread that
//! moves is a part of its event: whoever holds the event is alone with the thread. What a ring takes is of its run: the run
//! is the ring's family.
#![tactic(auto)]

mod desk;
mod event;
mod letter;
mod making;
mod refusal;
mod rows;
mod settling;
mod signal;
mod sleeper;

pub use desk::EventDesk;
pub use event::Event;
pub use letter::{EventLetter, Run};
pub use making::event_rings;
pub use refusal::EventRefusal;
pub use settling::settle_events;
pub use sleeper::{Sleeper, sleepers};
