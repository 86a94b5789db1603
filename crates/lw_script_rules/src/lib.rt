//! The rules over a script: which it breaks first, and whether the run serves it.
#![tactic(auto)]

mod limits;
mod names;
mod pattern;
mod range;
mod rules;
mod served;

pub use limits::is_within;
pub use rules::rule_broken;
pub use served::is_served;
