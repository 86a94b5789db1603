//! What a run comes to at its end: each device, and the pool.

/// What a device came to: the channels given, the thread that unregistered it, and the callbacks made.
#[derive(Copy, Clone, Drop, PartialEq, Eq, Debug)]
pub struct DeviceEnd {
    /// How many channels were given.
    pub given: u64,
    /// The thread that began the unregistration.
    pub thread: u32,
    /// How many callbacks came of it.
    pub callbacks: u32,
}

/// The buffers of each class that stood in the pool at the end.
#[derive(Copy, Clone, Drop, PartialEq, Eq, Debug)]
pub struct Home {
    pub small: u32,
    pub large: u32,
}
