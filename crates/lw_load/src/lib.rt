//! Load figures: how many ticks each light thread was busy and idle, for reactor 0 to read.
//!
//! Each thread has a cell of two words. Its pass alone publishes in it, and the reader loads it whole, so no pair is torn.
//! The rule of a cell: between any two steps it holds the pair that its pass published last.
#![tactic(auto)]

mod cell;
mod figures;
mod making;
mod pass;
mod reader;

pub use figures::Figures;
pub use making::loads;
pub use pass::LoadPass;
pub use reader::LoadReader;
