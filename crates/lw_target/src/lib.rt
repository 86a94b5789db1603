//! The target that a run serves: the app, the clients and the owners of the images as state machines of their own, and
//! the loop that turns them.
#![tactic(auto)]

mod action;
mod acts;
mod admission;
mod app;
mod buffers;
mod channel;
mod client;
mod device;
mod mail;
mod options;
mod owner;
mod post;
mod posts;
mod run;
mod running;
mod turns;

pub use options::Options;
pub use run::run_script;
