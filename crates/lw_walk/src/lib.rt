//! Walks through the world of events: a text of events, and the text of what the world answers to each.
#![tactic(auto)]

mod walk;

pub use walk::{Walked, walk_text};
