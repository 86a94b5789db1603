//! The world of events: what the runtime's parts may do to each other, as plain data.
#![tactic(auto)]

mod register;
mod tally;
mod world;
mod world_event;
mod world_state;

pub use world::World;
pub use world_event::{WorldEvent, WorldRefusal};
pub use world_state::{Stage, Standing};
