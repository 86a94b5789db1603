//! What can happen in a world, and why it may not.
ghost use Rattle.std.specs.Prelude.{◌≡◌};

/// One event. Threads, reactors and devices go by their numbers, from 0.
#[derive(Copy, Clone, PartialEq, Eq, Debug)]
pub enum WorldEvent {
    /// A thread sends a message to another, or to itself.
    Send { sender: u32, receiver: u32 },
    /// A thread runs the next message of a sender.
    Run { receiver: u32, sender: u32 },
    /// A thread leaves its reactor's list for another reactor.
    LeaveFor { thread: u32, reactor: u32 },
    /// A thread on its way comes into the list of the reactor that it left for.
    Arrive { thread: u32 },
    /// A thread ends.
    End { thread: u32 },
    /// A thread gets a channel of a device.
    Give { thread: u32, device: u32 },
    /// A thread destroys its channel of a device.
    Destroy { thread: u32, device: u32 },
    /// A thread shuts a device.
    Shut { thread: u32, device: u32 },
    /// The thread that shut a device fires its callback.
    Fire { thread: u32, device: u32 },
    /// A thread begins a visit of a device.
    BeginVisit { thread: u32, device: u32 },
    /// A thread ends its visit of a device.
    EndVisit { thread: u32, device: u32 },
    /// A reactor goes to sleep.
    Sleep { reactor: u32 },
    /// A sleeping reactor wakes.
    Wake { reactor: u32 },
}

/// Why an event was refused.
#[derive(Copy, Clone, PartialEq, Eq, Debug)]
pub enum WorldRefusal {
    /// A thread, reactor or device of this number isn't there.
    Unknown,
    /// The thread has ended.
    Exited,
    /// There is nothing to run, to end or to wake.
    Nothing,
    /// The thread stands in no list, or not on its way to a reactor that is awake.
    NotHere,
    /// A message to the thread wasn't run.
    Unrun,
    /// The thread owns a channel.
    HasChannel,
    /// The device is shut.
    Shut,
    /// The thread owns no channel of the device.
    NoChannel,
    /// That is so already.
    Already,
    /// The thread didn't shut the device.
    NotShut,
    /// The device or the thread has something open.
    InUse,
    /// A thread stands in the reactor's list.
    NotIdle,
    /// Memory was wanting. `World::step` takes none, and never answers it.
    NoMemory,
}

impl WorldRefusal {
    ghost use Rattle.lw_world.specs.World.{refusal_number};

    /// The refusal's number, from 1.
    pub fn number(self) -> u32
        ensures { result ≡ refusal_number self }
    {
        match self {
            WorldRefusal::Unknown => 1,
            WorldRefusal::Exited => 2,
            WorldRefusal::Nothing => 3,
            WorldRefusal::NotHere => 4,
            WorldRefusal::Unrun => 5,
            WorldRefusal::HasChannel => 6,
            WorldRefusal::Shut => 7,
            WorldRefusal::NoChannel => 8,
            WorldRefusal::Already => 9,
            WorldRefusal::NotShut => 10,
            WorldRefusal::InUse => 11,
            WorldRefusal::NotIdle => 12,
            WorldRefusal::NoMemory => 13,
        }
    }
}
