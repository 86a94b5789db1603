//! The messages that the threads of a target send each other.
//!
//! A message is at most 64 bytes, so that rings move little: what is larger stands behind a box, and a request carries no
//! operands, since its op stands in the script that all threads share.
#![tactic(auto)]

mod letter;
mod mail;

pub use letter::{Letter, RunName};
pub use mail::{Content, Mail};
