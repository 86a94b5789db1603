//! The clients of a target, as bodies of light threads.
//!
//! A client does its ops in order, each when it may, lists what each was answered, and gives back what it holds at the end.
#![tactic(auto)]

mod asking;
mod awaiting;
mod body;
mod calling;
mod client;
mod closing;
mod doing;
mod handling;
mod laws;
mod making;
mod next;
mod replying;
mod starting;
mod turning;

pub use client::{Client, Stage, Use, Waits};
pub use laws::clients_may_begin;
pub use starting::ACTIVE;
