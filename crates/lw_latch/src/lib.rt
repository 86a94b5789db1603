//! Latches: one atomic word each that counts who is at work on a shared object, and closes only when nobody is. A seat is
//! what its holder knows of the word, and by it alone the holder changes or reads it.
//!
//! A ring's latch counts the senders that are inside a send and the messages that were finished. It closes only in a
//! step that finds nobody inside and every finished message taken. From then on no sender gets in, so nothing that
//! was accepted is left behind.
//!
//! A device's latch counts the channels and visits that are open and the channels that were given. Once it is shut none is
//! given, and it fires only in a step that finds nothing open.
#![tactic(auto)]

mod device;
mod device_view;
pub mod device_word;
pub mod own_line;
mod ring;
mod ring_view;

pub use device::{DeviceSeat, DeviceTotals, Firing, Give, Hold, Look, Shutting, device_latch};
pub use device_view::{DeviceRule, DeviceTable, DeviceView};
pub use ring::{Closing, Enter, LatchRecv, LatchSend, ring_latch};
pub use ring_view::{RingRule, RingTable, RingView};
