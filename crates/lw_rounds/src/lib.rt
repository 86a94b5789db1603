//! The rounds of the dynamic scheduler, as reactor 0 makes them: when one is due, what it measures of each light thread, and
//! what it orders.
//!
//! A round reads the published figures of every thread and looks once where each stands. Those that stand in a reactor's list
//! have a row, with the ticks since the round before; the orders are the plan of the rows. Whoever makes the round sends each
//! order to the reactor in whose list the thread was found.
#![tactic(auto)]

mod balancer;
mod meter;

pub use balancer::{Balancer, MOST_ROUNDS};
