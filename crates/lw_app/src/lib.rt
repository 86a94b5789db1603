//! The app of a target, which is its thread 0, as the body of a light thread.
//!
//! The app takes in the set of each client that is done. Then it unregisters the devices, makes their callbacks, stops the owners
//! and asks to end.
#![tactic(auto)]

mod app;
mod body;
mod devices;
mod flags;
mod laws;
mod messages;
mod stops;

pub use app::{APP, App, Stage};
pub use flags::Flags;
pub use laws::{apps_leave_logs, apps_take_a_poller};
