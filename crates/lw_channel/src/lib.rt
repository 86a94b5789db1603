//! A thread's channels, one a device, counted by references.
//!
//! The first get of a device makes the thread's channel, and each further one counts a reference more. At the last put the
//! thread sends a message to itself, and the channel goes when that is run, unless there was a get in between. A visit keeps
//! the device without a channel. No call but `ChannelSet::new` takes memory, and none takes a lock.
#![tactic(auto)]

mod channel;
mod set;

pub use channel::{After, NoChannel, Put};
pub use lw_device::{Already, DeviceRow, Firing, GetRefusal, Hold};
pub use set::{ChannelSet, Got};
