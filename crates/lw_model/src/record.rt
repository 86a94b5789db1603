//! The record of a run: what each thread did, what each device came to, the rounds, and the pool at the end.
ghost use Rattle.std.specs.Prelude.{◌≡◌, true};
ghost use Rattle.lw_model.specs.Printable.{is_printable};

use crate::script::Script;
use lw_base::{DeviceEnd, Home, Hop, Items, Mark, Round, Scheduler, Tag, Tick};

/// What a run leaves behind, in full: a report is the text of one.
///
/// Its ghost field keeps that it has a text: the script is one that is accepted, reactors are 1 to 16, the period is 1
/// to 10^12, each thread has its entry and its role, replies and results stand under clients alone, and so on.
#[derive(Drop)]
pub struct Record {
    pub script: Script,
    pub scheduler: Scheduler,
    pub reactors: u32,
    pub period: u64,
    pub threads: Items<ThreadRecord>,
    pub devices: Items<DeviceEnd>,
    pub span: Option<Span>,
    pub rounds: Items<Round>,
    pub home: Home,
    pub ghost printable: { is_printable script scheduler reactors period threads devices span rounds ≡ true },
}

/// What one thread did. Within each list the order is that in which things happened.
#[derive(Drop)]
pub struct ThreadRecord {
    pub role: RoleKind,
    /// The reactor on which it started.
    pub home: u32,
    /// Its moves.
    pub hops: Items<Hop>,
    /// The messages that it ran.
    pub ran: Items<Tag>,
    /// What its ops were answered.
    pub did: Items<Did>,
    /// The callbacks that were made on it.
    pub called: Items<Called>,
    /// The replies to its requests; a client's alone.
    pub replies: Items<Reply>,
    /// The results of its visits and casts; a client's alone.
    pub seen: Items<Seen>,
}

/// What a thread is: thread 0 is the app, the clients follow in script order, then the owners in image order.
#[derive(Copy, Clone, Drop)]
pub enum RoleKind {
    App,
    Client,
    Owner,
}

/// What one op was answered, when the thread had run `at` messages. For the app `op` is a device's number; a client's
/// `Closed` has the number of its ops.
#[derive(Copy, Clone, Drop)]
pub struct Did {
    pub at: u64,
    pub op: u32,
    pub answer: Answer,
}

/// What an op is answered.
#[derive(Copy, Clone, Drop)]
pub enum Answer {
    /// A get made the channel. Its ordinal counts the device's channels from 0.
    Given { ordinal: u64 },
    /// A get found the channel standing.
    Again { ordinal: u64 },
    /// A get or a visit found the device being unregistered.
    Shut,
    /// A put gave one of several references back.
    Counted,
    /// A put gave the last reference back: the thread sent itself a PutSelf.
    Deferred,
    /// The client holds no reference.
    NoChannel,
    /// A request went to the owner.
    Sent,
    /// A wait is over.
    Waited,
    /// A visit or a cast is on its way.
    Started,
    /// An unregistration began, after so many channels had been given.
    Began { given: u64 },
    /// The device was being unregistered already.
    Already,
    /// A client had done all its ops, and gave all its references back.
    Closed,
}

/// A device's callback, made when the thread had run `at` messages.
#[derive(Copy, Clone, Drop)]
pub struct Called {
    pub at: u64,
    pub device: u32,
}

/// The reply to a client's request, by the number of the op.
#[derive(Drop)]
pub struct Reply {
    pub op: u32,
    pub answer: Replied,
}

/// What an owner replies.
#[derive(Drop)]
pub enum Replied {
    /// A write was done.
    Ok,
    /// The bytes of a read, one or more.
    Bytes(Items<u8>),
    /// How many writes had been done before a flush.
    Writes(u64),
}

/// The results of a client's visit or cast, by the number of the op.
#[derive(Drop)]
pub struct Seen {
    pub op: u32,
    pub results: SeenBy,
}

/// The results of a visit or a cast, by ascending thread.
#[derive(Drop)]
pub enum SeenBy {
    /// The threads that held a channel of the device, each with its submitted requests; maybe none.
    Visit(Items<Mark>),
    /// The threads that the cast reached, one or more.
    Cast(Items<u32>),
}

/// Reactor 0's first and last first readings of a turn.
#[derive(Copy, Clone, Drop)]
pub struct Span {
    pub first: u64,
    pub last: u64,
}
