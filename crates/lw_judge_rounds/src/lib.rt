//! Judges the rules on moves: where each thread started and to where it hopped, and the rounds of a dynamic run with
//! their orders.
#![tactic(auto)]

mod hops;
mod orders;
mod planned;
mod rounds;

pub use hops::homes_and_hops;
pub use rounds::rounds_and_orders;
