//! Stations: where the light threads of a reactor stand, and how they come and go.
//!
//! A thread is one owned value: in one reactor's list, held by one, or in one event. An event that a reactor takes puts a thread
//! into its list, orders it to send one of its list to another reactor, or to start one that it holds. Whoever is sent an event
//! is woken.
//!
//! What the clauses tell of a thread that crosses is what the letter of its event tells, its number and its hops, and that it
//! fits the ring: it is of the run, on its way to there, and may be polled. That it crosses as it was is said of the private
//! calls alone, which take it out of the list and put it into the event.
#![tactic(auto)]

mod posting;
mod station;
mod stop;

pub use posting::{order, post, stop_of};
pub use station::Station;
pub use stop::{Stop, Turned};
