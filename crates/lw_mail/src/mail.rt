//! A message: what it says, and who sent it under which number.
ghost use Rattle.std.specs.Prelude.{◌≡◌};
ghost use Rattle.lw_mail.specs.Saying.{what_of};

use crate::letter::{Letter, RunName};
use lw_base::{Tag, Tagged, What};
use lw_channel::ChannelSet;
use lw_pool::Buffer;
use lw_visit::{CastToken, VisitToken};
use std::alloc::Global;

/// What a message says. It is 48 bytes: a tag, at most two numbers of 4 bytes, and at most a buffer of 32.
///
/// A client and an op are numbers as in a report. The operands of a request are those of the client's op in the script.
#[derive(Drop)]
pub enum Content {
    /// A client asks the owner of an image for a write or a flush.
    Request {
        client: u32,
        op: u32,
    },
    /// A client asks for a read, and lends the buffer that is to be filled.
    Read {
        client: u32,
        op: u32,
        buffer: Buffer,
    },
    /// An owner did that write.
    Written {
        op: u32,
    },
    /// An owner did that read: the buffer goes back, filled with the bytes.
    Filled {
        op: u32,
        buffer: Buffer,
    },
    /// An owner's answer to that flush: how many writes it ran before.
    Flushed {
        op: u32,
        writes: u64,
    },
    /// A client tells itself, behind the last put of a channel, that the channel may go.
    PutSelf {
        device: u32,
    },
    /// The token of a visit on its way.
    Visit(Box<VisitToken, Global>),
    /// The token of a visit that has passed all threads, at its origin.
    Visited(Box<VisitToken, Global>),
    /// The token of a cast on its way.
    Cast(Box<CastToken, Global>),
    /// The token of a cast that has passed all threads, at its origin.
    Casted(Box<CastToken, Global>),
    /// A client has done all its ops. It hands its set of channels over, in which no channel stands.
    Done(Box<ChannelSet, Global>),
    /// The app's last message to an owner.
    Stop,
}

impl Content {
    // What it is for.
    fn what(&self) -> What
        ensures { result ≡ what_of self.now }
    {
        match self {
            Content::Request { op, .. } | Content::Read { op, .. } => What::Request { op: *op },
            Content::Written { op } | Content::Filled { op, .. } | Content::Flushed { op, .. } => {
                What::Reply { op: *op }
            }
            Content::PutSelf { device } => What::PutSelf { device: *device },
            Content::Visit(token) => What::Visit {
                origin: token.origin(),
                op: token.op(),
                device: token.device(),
            },
            Content::Visited(token) => What::Visited { op: token.op() },
            Content::Cast(token) => What::Cast {
                origin: token.origin(),
                op: token.op(),
            },
            Content::Casted(token) => What::Casted { op: token.op() },
            Content::Done(_) => What::Done,
            Content::Stop => What::Stop,
        }
    }
}

/// A message, with the number of the thread that sent it and how many that thread had sent to the receiver before. Both are 0
/// until it is sent. It is 64 bytes: 16 for the two, and 48 for what it says.
#[derive(Drop)]
pub struct Mail {
    pub sender: u32,
    pub number: u64,
    pub content: Content,
}

impl Mail {
    /// A message that isn't sent yet.
    pub fn new(content: Content) -> Mail
        ensures { result ≡ record { sender = 0; number = 0; content = content } }
    {
        Mail {
            sender: 0,
            number: 0,
            content,
        }
    }
}

impl Tagged for Mail {
    ghost use Rattle.std.specs.Prelude.{refl};
    ghost use Rattle.lw_whole.specs.Unsent.{named};
    ghost use Rattle.lw_mail.specs.Saying.{letter_of};
    ghost use Rattle.lw_mail.specs.Fitting.{fits_mail};

    type Letter = Letter;

    type Family = RunName;

    ghost letter = { letter_of };

    ghost tag_of = { λ x. x.tag };

    ghost fits = { fits_mail };

    ghost marked = { named };

    ghost marked_tag = { λ x s n. refl };

    ghost marked_last = { λ x s n t k. refl };

    ghost marked_same = { λ x. refl };

    fn tag(&self) -> Tag {
        Tag {
            sender: self.sender,
            number: self.number,
            what: self.content.what(),
        }
    }

    fn mark(&mut self, sender: u32, number: u64) {
        self.sender = sender;
        self.number = number;
    }
}
