//! What a thread did, one line at a time.
use crate::record::{Called, Did};
use lw_base::Tag;

/// A line that says what a thread did. `place` is its place, from 0, among the thread's lines of its kind.
///
/// Own order is the order of these by how many messages the thread had run: a `did` and a `called` line carry that
/// number as `at`, and of a `ran` line it is its place.
#[derive(Copy, Clone, Drop)]
pub enum Step {
    /// What one op was answered.
    Did { place: u64, line: Did },
    /// A device's callback.
    Called { place: u64, line: Called },
    /// A message that was run.
    Ran { place: u64, tag: Tag },
}
