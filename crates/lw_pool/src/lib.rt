//! The pool of read buffers: a fixed number of each of two classes, taken and given back by any number of threads.
//!
//! The free buffers of a class wait in one queue that all passes share. Its rule: between any two steps, the buffers that
//! wait and those that each pass has out are together all of the class. So a buffer that comes back finds room.
#![tactic(auto)]

mod buffer;
mod class;
mod making;
mod pass;
mod queue;
mod settling;

pub use buffer::Buffer;
pub use class::{Class, LARGE_BYTES, SMALL_BYTES};
pub use lw_base::Home;
pub use making::pool;
pub use pass::{Empty, PoolPass};
pub use settling::settle_pool;
