//! Logs of many threads make a lawful record: a statement on lists alone.
#![tactic(auto)]

mod lawful;

pub use lawful::{owners_end, threads_have_a_text, whole_runs_are_lawful};
