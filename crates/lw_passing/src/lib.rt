//! How the body of a light thread passes tokens on.
//!
//! The token of a for-each goes to each thread in ascending order. Who has run it sends it to the next thread, and who gets it back
//! from a thread that has ended sends it past that thread; behind the last thread it is complete and goes home to its origin.
#![tactic(auto)]

mod casts;
mod visits;

pub use casts::{pass_cast, skip_cast};
pub use visits::{pass_visit, skip_visit};
