//! Light threads: a body, which runs messages one by one and keeps some state, with the ends of its ring and of all others,
//! its pollers, its seat and its load pass. A reactor polls it; whoever holds it alone touches it.
//!
//! One poll takes at most 8 messages and runs them, calls the active pollers, then the timed ones that are due, and makes the
//! sends that all of this asked for, in the order in which they were asked for. A message that comes back, because its receiver
//! has ended, goes to the body, and what that asks for is sent before the next.
#![tactic(auto)]

mod acts;
mod body;
mod closing;
mod ending;
mod laws;
mod links;
mod opening;
mod polling;
mod remains;
mod sending;
mod stop;
mod thread;

pub use acts::{Acts, Asked};
pub use body::{Body, Work};
pub use ending::{Ending, Why};
pub use laws::{a_removed_poller_is_not_called, a_thread_stays_of_its_run};
pub use lw_base::Hop;
pub use lw_poller::{PollerId, PollerRefusal};
pub use opening::Opened;
pub use remains::Remains;
pub use stop::{Polled, Stop};
pub use thread::LightThread;
