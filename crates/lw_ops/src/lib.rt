//! What the ops of a client ask for, and what they are answered by a set of channels and by the pollers of a light thread.
#![tactic(auto)]

mod answering;
mod kind;
mod pollers;
mod slots;
mod task;

pub use answering::{get_of, put_of, unregister_of};
pub use kind::{Kind, is_a_client, requested};
pub use pollers::{add_timer, pause, remove, resume};
pub use slots::Slots;
pub use task::{Task, op_of, task_of};
