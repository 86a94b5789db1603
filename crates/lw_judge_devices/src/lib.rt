//! Judges the rules on devices and on replies: what each device came to, and what each client was answered.
#![tactic(auto)]

mod device;
mod devices;
mod journal;
mod replay;
mod reply_lines;
mod table;

pub use devices::{Devices, Tells};
pub use reply_lines::replies;
