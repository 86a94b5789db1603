//! What light threads and reactors send, and how a message is named in a report.
/// What a message is for. Threads, devices and ops are numbers as in a report.
#[derive(Copy, Clone, PartialEq, Eq, Debug)]
pub enum What {
    /// A client's request of one op to the owner of an image.
    Request { op: u32 },
    /// The owner's reply to that request.
    Reply { op: u32 },
    /// A client's message to itself behind the last put of a channel.
    PutSelf { device: u32 },
    /// The token of a for-each over the channels of a device, on its way.
    Visit { origin: u32, op: u32, device: u32 },
    /// The completion of such a visit, at its origin.
    Visited { op: u32 },
    /// The token of a for-each over all threads, on its way.
    Cast { origin: u32, op: u32 },
    /// The completion of such a cast, at its origin.
    Casted { op: u32 },
    /// A client has done all its ops.
    Done,
    /// The app's last message to an owner.
    Stop,
    /// A light thread that moves to another reactor, with the round that ordered it.
    Arrive { round: u32, thread: u32 },
    /// The order of a round to a reactor to send a light thread away.
    Order { round: u32, thread: u32, to: u32 },
}

/// A message's name: who sent it, how many messages that sender had sent to this receiver before, and what it is for.
#[derive(Copy, Clone, PartialEq, Eq, Debug)]
pub struct Tag {
    pub sender: u32,
    pub number: u64,
    pub what: What,
}

/// One result of a visit: a thread that held a channel of the device, and how many requests it had submitted on it.
#[derive(Copy, Clone, PartialEq, Eq, Debug)]
pub struct Mark {
    pub thread: u32,
    pub submitted: u64,
}
