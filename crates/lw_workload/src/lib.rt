//! The workload of the command `load`: a script that is drawn from a number.
#![tactic(auto)]

mod drawing;
mod laws;
mod names;
mod ops;

pub use drawing::load_script;
pub use laws::loads_are_accepted;
