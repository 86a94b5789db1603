//! The parts of what is left of a light thread.
use crate::body::Body;
use crate::remains::Remains;
use lw_base::{Hop, Tag};
use lw_load::LoadPass;
use lw_place::ThreadSeat;
use lw_ring::{RecvEnd, SendEnd};

/// The parts of `Remains`.
#[derive(Drop)]
pub struct Opened<B: Body> {
    /// The body, which may end.
    pub body: B,
    /// The receiving end, which is closed.
    pub recv: RecvEnd<B::Message>,
    /// An end to the ring of each thread, by its number.
    pub ends: Vec<SendEnd<B::Message>>,
    /// The seat, which stands at the place of an ended thread.
    pub seat: ThreadSeat,
    /// The load pass, with the figures that it published last.
    pub load: LoadPass,
    /// The tags of all messages that it ran, in order.
    pub ran: Vec<Tag>,
    /// Its moves, in order.
    pub trail: Vec<Hop>,
}

impl<B: Body> Remains<B> {
    ghost use Rattle.lw_thread.specs.Rest.{IsAtRest};
    ghost use Rattle.lw_thread.specs.Opening.{IsOpenedAs};

    /// Its parts. The body is lawful of what the thread has run and sent, with nothing left to send and no poller, and it may
    /// end.
    pub fn open(self) -> Opened<B>
        ensures parts { IsOpenedAs self result }
        ensures kept { IsAtRest B.Message.tag_of B.lawful B.ends self }
    {
        let Remains {
            body,
            recv,
            ends,
            seat,
            load,
            ran,
            trail,
        } = self;
        Opened {
            body,
            recv,
            ends,
            seat,
            load,
            ran,
            trail,
        }
    }
}
