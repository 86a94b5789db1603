//! The pollers of one light thread, and which of them a poll calls, in which order.
//!
//! A poll calls each active poller, in order of registration, and each timed poller that is due, in order of due time. A poller
//! that was added during a poll is first called in a later one, and one that was removed in it isn't called any more, nor one
//! that was paused, unless it is resumed before its turn.
#![tactic(auto)]

mod adding;
mod changing;
mod names;
mod numbers;
mod once;
mod places;
mod poller;
mod polling;
mod set;

pub use names::{PollerId, PollerRefusal};
pub use once::{
    a_pause_leaves_a_poller_paused, neither_added_nor_removed_pollers_are_called,
    paused_pollers_are_not_called, pollers_are_called_once,
};
pub use poller::{Active, Resting, Timed};
pub use set::PollerSet;
