//! What a client keeps.
use lw_base::Items;
use lw_channel::ChannelSet;
use lw_mail::Mail;
use lw_model::{Called, Did, Reply, Script, Seen};
use lw_ops::Slots;
use lw_pool::PoolPass;
use std::alloc::Global;
use std::sync::Arc;

/// How far a client is.
#[derive(Copy, Clone, Drop)]
pub enum Stage {
    /// It has ops left, requests unanswered, or something that it waits for.
    Runs,
    /// It has given back all references of its channels.
    Closed,
    /// It has sent its Done, with its set of channels, and asked to end.
    Done,
}

/// What a client waits for before its next op.
#[derive(Copy, Clone, Drop)]
pub enum Waits {
    Nothing,
    /// The timed poller of this number, for the op of that, which is a wait. The active poller is paused meanwhile.
    Timer { poller: u32, op: u32 },
    /// The completion of the op of this number, which is a visit of the device.
    Visit { op: u32, device: u32 },
    /// The completion of the op of this number, which is a cast.
    Cast { op: u32 },
}

/// What a client keeps of an image and its device, beside its channel.
#[derive(Copy, Clone, Drop)]
pub struct Use {
    /// How many of its requests to the image are unanswered.
    pub requests: u32,
    /// How many PutSelfs of the device it has sent and not run.
    pub puts: u64,
    /// Whether it has begun to unregister the device and owes the callback.
    pub owes: bool,
}

/// A client of a script.
///
/// It keeps each message that comes back, unless it is a token that goes past a client which has ended, and each that no run sends to
/// it as it then is; with a message kept it never ends.
#[derive(Drop)]
pub struct Client {
    pub alloc: Global,
    /// The run's script, in which its ops stand.
    pub script: Arc<Script, Global>,
    /// The number of its thread.
    pub thread: u32,
    /// How many of its requests may be unanswered at once.
    pub depth: u32,
    /// Its set of channels, until it goes with its Done.
    pub set: Option<ChannelSet>,
    /// Its pass of the pool, by which it lends buffers to its reads.
    pub pool: PoolPass,
    /// What it keeps of each image and its device, beside its channel.
    pub uses: Slots<Use>,
    /// Of each op, whether its request is unanswered.
    pub unanswered: Slots<bool>,
    /// How many are.
    pub requests: u32,
    /// The number of its next op.
    pub next: u32,
    pub waits: Waits,
    pub stage: Stage,
    /// Its lines: what its ops were answered.
    pub did: Items<Did>,
    /// The callbacks that it made.
    pub called: Items<Called>,
    /// The replies that it ran.
    pub replies: Items<Reply>,
    /// The results of its visits and casts.
    pub seen: Items<Seen>,
    /// The messages that it keeps.
    pub kept: Items<Mail>,
}
