//! The tokens of for-each calls: a token goes from thread to thread by messages, in ascending order, and gathers what it was
//! sent for. It then comes back to its origin.
//!
//! A visit gathers how much was submitted on each thread's channel of a device, and keeps the device while it runs. A cast
//! gathers which threads ran it. The room for all results is taken when a token is made, so no step takes memory.
#![tactic(auto)]

mod cast;
mod next;
mod visit;

pub use cast::{CastToken, start_cast};
pub use lw_base::Mark;
pub use next::Next;
pub use visit::{VisitRefusal, VisitToken, finish_visit, start_visit};
