//! The sending end of a ring.
ghost use Rattle.std.specs.Prelude.{◌≡◌, ◌+◌, ◌<◌, ◌≤◌, true, false, [], ◌∷◌, ◌++◌, length, map, All, IfErr, OnOk};
ghost use Rattle.crossbeam_queue.specs.SegTies.{IsSegPassOf};
ghost use Rattle.lw_base.specs.Letters.{Names, Numbered, FitsRing};
ghost use Rattle.lw_latch.specs.RingWord.{most_sent};
ghost use Rattle.lw_ring.specs.Queue.{contents, Sends};
ghost use Rattle.lw_ring.specs.Calls.{AfterRefusal, NamedFrom};

use crate::latching;
use crate::parcel::Parcel;
use crate::queue::{Pass, Queue, Sending};
use lw_base::Tagged;
use lw_latch::{Enter, LatchSend};
use std::alloc::Global;
use std::fmt::Debug;
use std::marker::Model;
use std::sync::{Arc, Wait};
use thiserror::Error;

/// How many messages an end can send: 2^40.
const MOST_SENT: u64 = 1_099_511_627_776;

/// Unused words, so many that what lies on their two sides is on different cache lines, also where a processor fetches two
/// lines at once.
#[derive(Drop)]
pub struct Gap {
    words: [u64; 16],
}

impl Gap {
    pub fn new() -> Self {
        Gap { words: [0; 16] }
    }
}

/// The queue that the ends of a ring share. It is for no caller.
///
/// All ends read at each call where the queue's head and tail lie, so nothing that is written often may lie beside it.
pub struct Shared<T: Tagged + Drop> {
    pub(crate) before: Gap,
    pub(crate) queue: Queue<T>,
    pub(crate) behind: Gap,
}

impl<T: Tagged + Drop> Drop for Shared<T> {
    fn drop(self) {
        let Self {
            before: _,
            queue,
            behind: _,
        } = self;
        queue.destroy();
    }
}

/// Why a message was not sent, or a run of them. It comes back.
#[derive(Debug, Drop, Error)]
#[error_bound(T: Debug)]
pub enum SendRefusal<T> {
    /// With it, or with the run, this end would have sent more than 2^40 messages, the most that it can.
    #[error("the sender would have sent more messages than it can")]
    Spent(T),
    /// The receiver has closed the ring.
    #[error("the receiver has closed the ring")]
    Exited(T),
    /// There was no memory for it. The ring was not found closed.
    #[error("there was no memory to send")]
    NoMemory(T),
}

/// The end of one sender.
#[derive(Drop)]
pub struct SendEnd<T: Tagged + Drop> {
    pub(crate) shared: Arc<Shared<T>, Global>,
    pub(crate) pass: Pass<T>,
    pub(crate) latch: Option<LatchSend>,
    pub(crate) sender: u32,
    pub(crate) sent: u64,
    // Each send writes `sent`, so another sender's end never lies beside it.
    pub(crate) gap: Gap,
}

impl<T: Tagged + Drop> Model for SendEnd<T> {
    ghost use Rattle.std.specs.Arc.{arc_value};
    ghost use Rattle.lw_ring.specs.Ends.{Sender, latch_id, found_of, IsSendEnd};

    ghost Value = { Sender T.Letter T.Family };

    ghost view = { λ e. record {
      queue = (arc_value e.shared).queue;
      latch = latch_id e.latch;
      number = e.pass.me.view.client.number;
      family = e.pass.me.view.client.family;
      sender = e.sender;
      sent = e.pass.me.view.client.put;
      found = found_of e.latch;
    } };

    ghost invariant = { λ e.
        IsSendEnd T.tag_of (arc_value e.shared).queue e.pass e.latch e.sender e.sent };
}

impl<T: Tagged + Drop> SendEnd<T> {
    /// This end's number among the ring's senders, from 0.
    pub fn sender(&self) -> u32
        ensures { result ≡ self.now.sender }
    {
        self.sender
    }

    /// How many messages it has sent, at most 2^40. Each is named by this end and its place among them.
    pub fn sent(&self) -> u64
        ensures length { result ≡ length self.now.sent }
        ensures bound { result ≤ most_sent }
        ensures numbered { Numbered T.tag_of self.now.sender self.now.sent }
    {
        self.sent
    }

    /// Sends a message, which stands last in this end's sent list from then on.
    ///
    /// A refused one comes back, and the sent list stays as it is. It is refused as `Spent` exactly where 2^40 were
    /// sent, and as `Exited` only where this call's own step found the ring's latch closed. After an `Exited` this end
    /// sends nothing more. `NoMemory` is for want of a block of the queue, which has room for 31 messages or runs. The message
    /// names this end and the number that comes next, and fits the ring.
    #[inline(always)]
    pub fn send<R: Wait>(&mut self, rt: &R, value: T) -> Result<(), SendRefusal<T>>
        requires names { Names (T.tag_of (T.letter value)) self.old.sender (length self.old.sent) }
        requires fits { FitsRing T.fits self.old.number self.old.family value }
        ensures same { self.new ≡ record self.old { sent = self.new.sent; found = self.new.found } }
        ensures ok { OnOk result (self.new ≡ record self.old { sent = self.old.sent ++ T.letter value ∷ [] }) }
        ensures room { OnOk result (length self.old.sent < most_sent) }
        ensures not_exited { OnOk result (self.old.found ≡ 0) }
        ensures refused { IfErr result (λ r. AfterRefusal r value 1 self.old self.new) }
    {
        if self.sent == MOST_SENT {
            return Err(SendRefusal::Spent(value));
        }
        if latching::enter(&mut self.latch) == Enter::Closed {
            return Err(SendRefusal::Exited(value));
        }
        match push(rt, &self.shared.queue, &mut self.pass, Parcel::One(value)) {
            Ok(()) => {
                latching::finish(&mut self.latch, 1);
                self.sent += 1;
                Ok(())
            }
            Err(Parcel::One(value)) => {
                latching::cancel(&mut self.latch);
                Err(SendRefusal::NoMemory(value))
            }
            Err(Parcel::Run(_)) => unreachable!(),
        }
    }

    /// Sends a run: several messages, one at least, in one push, with one step into the latch and one out of it. They
    /// stand last in this end's sent list from then on, in their order. The vector travels with them, and the receiver may
    /// keep it for its `spare`.
    ///
    /// A refused run comes back whole, for the reasons of `send`: as `Spent` exactly where more than 2^40 messages would
    /// be sent. The messages name this end and the numbers that come next, and each fits the ring.
    pub fn send_run<R: Wait>(&mut self, rt: &R, run: Vec<T>) -> Result<(), SendRefusal<Vec<T>>>
        requires some { 1 ≤ length run.items }
        requires names { NamedFrom T.letter T.tag_of self.old.sender (length self.old.sent) run.items }
        requires fits { All (FitsRing T.fits self.old.number self.old.family) run.items }
        ensures same { self.new ≡ record self.old { sent = self.new.sent; found = self.new.found } }
        ensures ok { OnOk result (self.new ≡ record self.old { sent = self.old.sent ++ map T.letter run.items }) }
        ensures room { OnOk result (length self.old.sent + length run.items ≤ most_sent) }
        ensures not_exited { OnOk result (self.old.found ≡ 0) }
        ensures refused { IfErr result (λ r. AfterRefusal r run (length run.items) self.old self.new) }
    {
        let count = run.len() as u64;
        if count > MOST_SENT - self.sent {
            return Err(SendRefusal::Spent(run));
        }
        if latching::enter(&mut self.latch) == Enter::Closed {
            return Err(SendRefusal::Exited(run));
        }
        match push(rt, &self.shared.queue, &mut self.pass, Parcel::Run(run)) {
            Ok(()) => {
                latching::finish(&mut self.latch, count);
                self.sent += count;
                Ok(())
            }
            Err(Parcel::Run(run)) => {
                latching::cancel(&mut self.latch);
                Err(SendRefusal::NoMemory(run))
            }
            Err(Parcel::One(_)) => unreachable!(),
        }
    }
}

// A parcel goes to the back of the queue.
#[inline(always)]
fn push<T: Tagged + Drop, R: Wait>(
    rt: &R,
    queue: &Queue<T>,
    pass: &mut Pass<T>,
    parcel: Parcel<T>,
) -> Result<(), Parcel<T>>
    requires queue { IsSegPassOf queue.now pass.old }
    requires sender { (pass.old.me.view.client.fresh ≡ false) × (pass.old.me.view.client.sends ≡ true) }
    requires names { All (λ x. (T.tag_of (T.letter x)).sender ≡ pass.old.me.view.client.from) (contents parcel) }
    requires fits { All (FitsRing T.fits pass.old.me.view.client.number pass.old.me.view.client.family) (contents parcel) }
    requires room { length pass.old.me.view.client.put + length (contents parcel) ≤ most_sent }
    ensures queue { IsSegPassOf queue.now pass.new }
    ensures ok { OnOk result (Sends T.letter pass.old.me.view.client parcel pass.new.me.view.client) }
    ensures refused { IfErr result (λ x. (x ≡ parcel) × (pass.new.me.view.client ≡ pass.old.me.view.client)) }
{
    queue.push_as::<Sending, R>(rt, pass, parcel)
}
