//! The owners of a target's images, as bodies of light threads.
//!
//! An owner runs each request on its image and sends one reply, passes tokens on, and asks to end when a Stop runs.
#![tactic(auto)]

mod body;
mod laws;
mod owner;
mod serving;

pub use laws::owners_leave_logs;
pub use owner::Owner;
