//! A message ring: many senders, one receiver, and a latch by which the receiver closes it.
//!
//! Messages stand in one queue that all ends share, singly or in runs of one sender. Its rule: between any two steps, of
//! each sender, what came off the queue and then what waits there is what it sent. A ring with a latch can be closed, and
//! then holds nothing and takes nothing more. An open ring is one without a latch: it is never closed. A ring with a latch
//! that is not closed yet is called just that.
#![tactic(auto)]

mod ends;
mod latching;
mod making;
mod parcel;
mod queue;
mod recv;
mod settling;

pub use ends::{SendEnd, SendRefusal};
pub use lw_latch::Closing;
pub use making::{open_ring, open_ring_as, ring, ring_as};
pub use recv::RecvEnd;
pub use settling::{Pair, Settled, settle};
