//! The text of a record: what a run's report says, line for line.
#![tactic(auto)]

mod parts;
mod printed;
mod text;
mod threads;

pub use text::print;
