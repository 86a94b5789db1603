//! Judges the rules on messages: what a thread ran was sent to it, and each client saw what its visits came to.
#![tactic(auto)]

mod ran;
mod seen;
mod sends;
mod tokens;
mod visits;

pub use ran::ran_is_sent;
pub use seen::visits_seen;
pub use sends::Sends;
pub use tokens::{Runners, Token};
pub use visits::Marks;
