//! Names that the crates above share.
use std::alloc::AllocError;

/// A light thread, by its place: the app is 0, the clients follow in script order, then the owners in image order.
#[derive(Copy, Clone, PartialEq, Eq, Debug)]
pub struct ThreadId(pub u32);

/// A reactor, by its place from 0.
#[derive(Copy, Clone, PartialEq, Eq, Debug)]
pub struct ReactorId(pub u32);

/// A reading of a clock, or a difference of two, in the clock's own unit (nanoseconds for the program's clock).
pub type Tick = u64;

/// The outside failed. Which trait call answers it, and what it leaves, the trait says.
#[derive(Copy, Clone, PartialEq, Eq, Debug)]
pub struct Failed;

/// There was no memory. Unless a call says otherwise, it leaves all as before the call.
pub type NoMemory = AllocError;
