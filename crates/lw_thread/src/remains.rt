//! What is left of a light thread.
use crate::body::Body;
use lw_base::{Hop, Tag};
use lw_load::LoadPass;
use lw_place::ThreadSeat;
use lw_ring::{RecvEnd, SendEnd};
use std::marker::Model;

/// What is left of a light thread that has ended. Its number, what it has run and its moves can be read; `open` gives its parts,
/// with what they keep.
#[derive(Drop)]
pub struct Remains<B: Body> {
    pub(crate) body: B,
    pub(crate) recv: RecvEnd<B::Message>,
    pub(crate) ends: Vec<SendEnd<B::Message>>,
    pub(crate) seat: ThreadSeat,
    pub(crate) load: LoadPass,
    pub(crate) ran: Vec<Tag>,
    pub(crate) trail: Vec<Hop>,
}

impl<B: Body> Model for Remains<B> {
    ghost use Rattle.lw_thread.specs.Rest.{Left, IsAtRest};

    ghost Value = { Left B.Message.Letter B.Message.Family B };

    ghost view = { λ r. record {
      body = r.body;
      recv = r.recv;
      ends = r.ends.items;
      seat = r.seat;
      load = r.load;
      ran = r.ran.items;
      trail = r.trail.items;
    } };

    ghost invariant = { λ r. IsAtRest B.Message.tag_of B.lawful B.ends (record {
      body = r.body;
      recv = r.recv;
      ends = r.ends.items;
      seat = r.seat;
      load = r.load;
      ran = r.ran.items;
      trail = r.trail.items;
    }) };
}

impl<B: Body> Remains<B> {
    ghost use Rattle.std.specs.Prelude.{◌≡◌};
    ghost use Rattle.lw_thread.specs.Rest.{IsAtRest};

    /// The thread's number. What all remains keep can be learned by this call.
    pub fn number(&self) -> u32
        ensures number { result ≡ self.now.seat.thread }
        ensures kept { IsAtRest B.Message.tag_of B.lawful B.ends self.now }
    {
        self.seat.thread()
    }

    /// The tags of all messages that the thread ran, in order.
    pub fn ran(&self) -> &[Tag]
        ensures { result.now ≡ self.now.ran }
    {
        self.ran.as_slice()
    }

    /// The thread's moves, in order.
    pub fn trail(&self) -> &[Hop]
        ensures { result.now ≡ self.now.trail }
    {
        self.trail.as_slice()
    }
}
