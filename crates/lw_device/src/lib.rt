//! The registry of a run's devices: who holds channels, and when a device may go.
//!
//! Each device has a latch, one atomic word, and each thread has a row with a seat at each latch. A get gives the thread's
//! channel its ordinal; a visit keeps the device while a for-each runs; from the step that begins the unregistration both
//! are refused, and the callback comes once, when nothing is open.
#![tactic(auto)]

mod making;
mod row;
mod settling;

pub use lw_base::DeviceEnd;
pub use lw_latch::{Firing, Hold, Look};
pub use making::devices;
pub use row::{Already, DeviceRow, GetRefusal};
pub use settling::settle_devices;
