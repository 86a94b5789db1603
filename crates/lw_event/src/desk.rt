//! A reactor's ends of the event rings.
ghost use Rattle.std.specs.Prelude.{◌≡◌, ℕ, ◌<◌, ◌≤◌, List, [], ◌∷◌, ◌++◌, length, map, slice_index_or, None, IfSome, IfErr, OnOk, IfNone};
ghost use Rattle.lw_base.specs.Letters.{FitsRing};
ghost use Rattle.lw_latch.specs.RingWord.{most_sent};
ghost use Rattle.lw_ring.specs.Calls.{InTurn};
ghost use Rattle.lw_event.specs.Letters.{tag_in, with_name};
ghost use Rattle.lw_event.specs.Events.{letter_of, event_fits};
ghost use Rattle.lw_thread.specs.Runs.{RunId, RingId};
ghost use Rattle.lw_event.specs.Desks.{Desk, IsDeskOf, IsStill, IsKept, most_taken};
ghost use Rattle.lw_event.specs.Calls.{IsSent, IsRefused, IsRefusedBy, WasEmpty};

use crate::event::Event;
use crate::refusal::EventRefusal;
use lw_base::Tagged;
use lw_ring::{RecvEnd, SendEnd, SendRefusal};
use lw_thread::Body;
use std::marker::Model;
use std::sync::Wait;

/// How many events one take gives at most.
pub(crate) const MOST_TAKEN: usize = 8;

/// A reactor's desk: the receiving end of its event ring, and a sending end to the ring of each reactor.
///
/// What it keeps, `number` tells. It keeps room for the events of one take, so that taking needs no memory.
#[derive(Drop)]
pub struct EventDesk<B: Body> {
    pub(crate) number: u32,
    pub(crate) recv: RecvEnd<Event<B>>,
    pub(crate) ends: Vec<SendEnd<Event<B>>>,
    // What was taken and not handed out, the last first.
    pub(crate) batch: Vec<Event<B>>,
}

impl<B: Body> Model for EventDesk<B> {
    ghost use Rattle.std.specs.Prelude.{◌≤◌, reverse, vec_capacity};
    ghost use Rattle.lw_event.specs.Desks.{Desk, IsKept, most_taken};

    ghost Value = { Desk B B.Message B.Message.Letter B.Message.Family };

    ghost view = { λ d. record {
      number = d.number;
      recv = d.recv;
      ends = d.ends.items;
      batch = reverse d.batch.items;
    } };

    ghost invariant = { λ d. (most_taken ≤ vec_capacity d.batch) × IsKept (record {
      number = d.number;
      recv = d.recv;
      ends = d.ends.items;
      batch = reverse d.batch.items;
    }) };
}

impl<B: Body> EventDesk<B> {
    /// The reactor's number. What each desk keeps can be learned by this call.
    pub fn number(&self) -> u32
        ensures number { result ≡ self.now.number }
        ensures kept { IsKept self.now }
    {
        self.number
    }

    /// A law, and no work: through calls that leave it still, a desk stays that of its reactor, its run and its rings.
    pub fn stays(&self)
        ensures { (run : RunId B.Message.Family) (rings : List RingId) (k : ℕ)
            (old : Desk B B.Message B.Message.Letter B.Message.Family)
            → IsDeskOf run rings k old → IsStill old self.now → IsDeskOf run rings k self.now }
    {
        let _number = self.number;
    }

    /// How many reactors there are.
    pub fn reactors(&self) -> u32
        ensures { result ≡ length self.now.ends }
    {
        self.ends.len() as u32
    }

    /// Sends an event to a reactor, or to its own. It stands last in what this desk has sent there, named by this reactor and its
    /// place there.
    ///
    /// A refused one comes back as it was given, and nothing has changed. It is refused as `Spent` exactly where 2^40 were sent
    /// to that reactor; `NoMemory` is for want of memory. The thread of an arrival is of the run, on its way to that
    /// reactor, with a round above that of its last hop, and no poll of it has answered Stop. The reactor that an order
    /// names is one of the run's.
    pub fn send<R: Wait>(&mut self, rt: &R, to: u32, event: Event<B>) -> Result<(), EventRefusal<B>>
        requires range { to < length self.old.ends }
        requires fits { FitsRing event_fits to self.old.recv.family event }
        ensures sent { OnOk result (IsSent to event self.old self.new) }
        ensures refused { IfErr result (λ r. IsRefused to event self.old r × (self.new ≡ self.old)) }
        ensures still { IsStill self.old self.new }
    {
        post(rt, &mut self.ends[to as usize], event)
    }

    /// Takes up to eight events that wait, and answers how many: `next` hands them out one by one. What the take before gave was
    /// handed out.
    ///
    /// There are fewer than eight only where the ring was empty at a moment of the call. It takes no memory. That an event which
    /// waits is taken is shown by tests alone.
    pub fn take<R: Wait>(&mut self, rt: &R) -> usize
        requires { self.old.batch ≡ [] }
        ensures count { (result ≡ length self.new.batch) × (result ≤ most_taken) }
        ensures taken { self.new ≡ record self.old {
          recv = record self.old.recv {
            taken = self.old.recv.taken ++ map letter_of self.new.batch;
            hand = self.new.recv.hand;
          };
          batch = self.new.batch;
        } }
        ensures order { InTurn self.old.recv.hand (map letter_of self.new.batch) self.new.recv.hand }
        ensures fewer { result < most_taken →
            (self.new.recv.hand ≡ []) × WasEmpty self.new }
        ensures still { IsStill self.old self.new }
    {
        self.recv.take_into(rt, MOST_TAKEN, &mut self.batch);
        self.batch.reverse();
        self.batch.len()
    }

    /// The next of the events that were taken; none exactly where all were handed out.
    ///
    /// It fits this reactor: the thread of an arrival is of the run, and on its way to here. One of the reactors has sent it.
    pub fn next(&mut self) -> Option<Event<B>>
        ensures next { IfSome result (λ e. self.old ≡ record self.new { batch = e ∷ self.new.batch }) }
        ensures fits { IfSome result (λ e. FitsRing event_fits self.old.number self.old.recv.family e) }
        ensures sender { IfSome result (λ e. (tag_in (letter_of e)).sender < length self.old.ends) }
        ensures none { IfNone result ((self.old.batch ≡ []) × (self.new ≡ self.old)) }
        ensures still { IsStill self.old self.new }
    {
        let event = self.batch.pop()?;
        Some(event)
    }

    /// The sending end to a reactor, as it is. The rest is dropped.
    pub fn into_end(self, to: u32) -> SendEnd<Event<B>>
        requires { to < length self.ends }
        ensures { (d : _) → result ≡ slice_index_or self.ends to d }
    {
        let EventDesk {
            number: _,
            recv: _,
            mut ends,
            batch: _,
        } = self;
        ends.swap_remove(to as usize)
    }
}

// Sends an event by this end. A refused one gets its own name back.
fn post<B: Body, R: Wait>(
    rt: &R,
    end: &mut SendEnd<Event<B>>,
    event: Event<B>,
) -> Result<(), EventRefusal<B>>
    requires fits { FitsRing event_fits end.old.number end.old.family event }
    requires open { end.old.latch ≡ None }
    ensures same { end.new ≡ record end.old { sent = end.new.sent } }
    ensures sent { OnOk result ((length end.old.sent < most_sent) × (end.new ≡ record end.old {
      sent = end.old.sent ++ with_name (letter_of event) end.old.sender (length end.old.sent) ∷ [];
    })) }
    ensures refused { IfErr result (λ r. IsRefusedBy end.old event r × (end.new ≡ end.old)) }
{
    let given = event.tag();
    let mut event = event;
    let count = end.sent();
    event.mark(end.sender(), count);
    match end.send(rt, event) {
        Ok(()) => Ok(()),
        Err(SendRefusal::Spent(mut event)) => {
            event.mark(given.sender, given.number);
            Err(EventRefusal::Spent { event, count })
        }
        Err(SendRefusal::NoMemory(mut event)) => {
            event.mark(given.sender, given.number);
            Err(EventRefusal::NoMemory { event })
        }
        Err(SendRefusal::Exited(_)) => unreachable!(),
    }
}

fn is_send<X: Send>(_x: &X) {}

/// An event crosses to another machine thread. It is for no caller.
pub fn events_are_send<B: Body>(event: &Event<B>) {
    is_send(event)
}

/// So does a desk. It is for no caller.
pub fn desks_are_send<B: Body>(desk: &EventDesk<B>) {
    is_send(desk)
}
