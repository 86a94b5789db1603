//! The receiving end of a ring.
ghost use Rattle.std.specs.Prelude.{◌≡◌, ◌≢◌, ℕ, ◌+◌, ◌*◌, ◌<◌, ◌≤◌, true, false, [], ◌++◌, length, map, reverse, IfSome, All, IsSome, MatchOption, vec_capacity};
ghost use Rattle.crossbeam_queue.specs.SegTies.{IsSegPassOf};
ghost use Rattle.lw_latch.specs.RingWord.{above_all_sent, finished_unit};
ghost use Rattle.lw_ring.specs.Queue.{contents, AllFit, Takes, TakenOff, Saw};
ghost use Rattle.lw_ring.specs.Calls.{EmptyAt, InTurn};
ghost use Rattle.lw_ring.specs.Ends.{IsSpare};

use crate::ends::Shared;
use crate::latching;
use crate::parcel::Parcel;
use crate::queue::{Pass, Queue, Taking};
use lw_base::Tagged;
use lw_latch::{Closing, LatchRecv};
use std::alloc::Global;
use std::marker::Model;
use std::mem;
use std::sync::{Arc, Wait};

/// The end of the one receiver.
#[derive(Drop)]
pub struct RecvEnd<T: Tagged + Drop> {
    pub(crate) shared: Arc<Shared<T>, Global>,
    pub(crate) pass: Pass<T>,
    pub(crate) latch: Option<LatchRecv>,
    pub(crate) senders: u32,
    // How many messages were handed out.
    pub(crate) taken: u64,
    // The rest of the run that was begun, its last message first.
    pub(crate) hand: Vec<T>,
    // Vectors of runs that were handed out, for as many as it has room.
    pub(crate) spares: Vec<Vec<T>>,
}

impl<T: Tagged + Drop> Model for RecvEnd<T> {
    ghost use Rattle.std.specs.Prelude.{take, drop};
    ghost use Rattle.std.specs.Arc.{arc_value};
    ghost use Rattle.lw_ring.specs.Ends.{Receiver, latch_id, found_of, closed_of, tries_of, seen_of, IsRecvEnd};

    ghost Value = { Receiver T.Letter T.Family };

    ghost view = { λ e. record {
      queue = (arc_value e.shared).queue;
      latch = latch_id e.latch;
      number = e.pass.me.view.client.number;
      family = e.pass.me.view.client.family;
      senders = e.senders;
      taken = take e.taken e.pass.me.view.client.got;
      hand = drop e.taken e.pass.me.view.client.got;
      closed = closed_of e.latch;
      tries = tries_of e.latch;
      seen = seen_of e.latch;
      known = e.pass.me.view.client.known;
      found = found_of e.latch;
    } };

    ghost invariant = { λ e.
        IsRecvEnd T.letter T.tag_of T.fits (arc_value e.shared).queue e.pass e.latch e.senders e.taken
        e.hand.items e.spares.items };
}

// The oldest parcel that waits.
pub(crate) fn pop<T: Tagged + Drop, R: Wait>(
    rt: &R,
    queue: &Queue<T>,
    pass: &mut Pass<T>,
) -> Option<Parcel<T>>
    requires queue { IsSegPassOf queue.now pass.old }
    requires receiver { (pass.old.me.view.client.fresh ≡ false) × (pass.old.me.view.client.gets ≡ true) }
    ensures queue { IsSegPassOf queue.now pass.new }
    ensures told { MatchOption result
        ((pass.new.me.view.client ≡ pass.old.me.view.client)
        × Saw T.letter T.tag_of T.fits pass.old.me.view.client [])
        (λ x. Takes T.letter T.tag_of T.fits pass.old.me.view.client x pass.new.me.view.client) }
{
    queue.pop_as::<Taking, R>(rt, pass)
}

// Whether nothing waits. It is two loads, and so much less than a pop that finds nothing.
fn is_empty<T: Tagged + Drop>(queue: &Queue<T>, pass: &mut Pass<T>) -> bool
    requires { IsSegPassOf queue.now pass.old }
    ensures queue { IsSegPassOf queue.now pass.new }
    ensures same { pass.new.me.view.client ≡ pass.old.me.view.client }
    ensures empty { result ≡ true → Saw T.letter T.tag_of T.fits pass.old.me.view.client [] }
{
    queue.is_empty_as::<Taking>(pass)
}

// Hands out what is in hand, until there are `max` messages.
fn hand_out<T: Tagged + Drop>(hand: &mut Vec<T>, batch: &mut Vec<T>, max: usize)
    requires room { (length batch.old.items ≤ max) × (max ≤ vec_capacity batch.old) }
    ensures items { batch.new.items ++ reverse hand.new.items ≡ batch.old.items ++ reverse hand.old.items }
    ensures count { length batch.new.items ≤ max }
    ensures room { vec_capacity batch.old ≤ vec_capacity batch.new }
    ensures all { length batch.new.items < max → hand.new.items ≡ [] }
{
    for _ in batch.len()..max {
        match hand.pop() {
            Some(value) => {
                if batch.push(value).is_err() {
                    unreachable!();
                }
            }
            None => return,
        }
    }
}

// Keeps an emptied vector, where there is room.
fn keep<T: Tagged + Drop>(spares: &mut Vec<Vec<T>>, emptied: Vec<T>)
    requires { All IsSpare spares.old.items × (emptied.items ≡ []) }
    ensures { All IsSpare spares.new.items }
{
    if emptied.capacity() > 0 && spares.len() < spares.capacity() {
        if spares.push(emptied).is_err() {
            unreachable!();
        }
    }
}

// Hands a parcel out. What goes past `max` messages stays in hand.
fn unpack<T: Tagged + Drop>(
    parcel: Parcel<T>,
    hand: &mut Vec<T>,
    spares: &mut Vec<Vec<T>>,
    batch: &mut Vec<T>,
    max: usize,
)
    requires room { (length batch.old.items < max) × (max ≤ vec_capacity batch.old) }
    requires hand { hand.old.items ≡ [] }
    requires spares { All IsSpare spares.old.items }
    ensures items { batch.new.items ++ reverse hand.new.items ≡ batch.old.items ++ contents parcel }
    ensures count { length batch.new.items ≤ max }
    ensures room { vec_capacity batch.old ≤ vec_capacity batch.new }
    ensures all { length batch.new.items < max → hand.new.items ≡ [] }
    ensures spares { All IsSpare spares.new.items }
{
    match parcel {
        Parcel::One(value) => {
            if batch.push(value).is_err() {
                unreachable!();
            }
        }
        Parcel::Run(run) => unpack_run(run, hand, spares, batch, max),
    }
}

// The same of a run.
fn unpack_run<T: Tagged + Drop>(
    mut run: Vec<T>,
    hand: &mut Vec<T>,
    spares: &mut Vec<Vec<T>>,
    batch: &mut Vec<T>,
    max: usize,
)
    requires room { (length batch.old.items < max) × (max ≤ vec_capacity batch.old) }
    requires hand { hand.old.items ≡ [] }
    requires spares { All IsSpare spares.old.items }
    ensures items { batch.new.items ++ reverse hand.new.items ≡ batch.old.items ++ run.items }
    ensures count { length batch.new.items ≤ max }
    ensures room { vec_capacity batch.old ≤ vec_capacity batch.new }
    ensures all { length batch.new.items < max → hand.new.items ≡ [] }
    ensures spares { All IsSpare spares.new.items }
{
    if run.len() <= max - batch.len() {
        if batch.append(&mut run).is_err() {
            unreachable!();
        }
        keep(spares, run);
    } else {
        run.reverse();
        keep(spares, mem::replace(hand, run));
        hand_out(hand, batch, max);
    }
}

// Takes parcels off the queue until there are `max` messages or none waits. Before that nothing is in hand.
fn fill<T: Tagged + Drop, R: Wait>(
    rt: &R,
    queue: &Queue<T>,
    pass: &mut Pass<T>,
    hand: &mut Vec<T>,
    spares: &mut Vec<Vec<T>>,
    batch: &mut Vec<T>,
    max: usize,
)
    requires queue { IsSegPassOf queue.now pass.old }
    requires receiver { (pass.old.me.view.client.fresh ≡ false) × (pass.old.me.view.client.gets ≡ true) }
    requires short { length pass.old.me.view.client.got < above_all_sent }
    requires room { (length batch.old.items ≤ max) × (max ≤ vec_capacity batch.old) }
    requires hand { length batch.old.items < max → hand.old.items ≡ [] }
    requires spares { All IsSpare spares.old.items }
    ensures queue { IsSegPassOf queue.now pass.new }
    ensures full { max ≤ length batch.old.items →
        (batch.new.items ≡ batch.old.items) × (hand.new.items ≡ hand.old.items) }
    ensures off { TakenOff T.letter T.tag_of T.fits pass.old.me.view.client pass.new.me.view.client
        (batch.old.items ++ reverse hand.old.items) (batch.new.items ++ reverse hand.new.items) }
    ensures count { length batch.new.items ≤ max }
    ensures room { vec_capacity batch.old ≤ vec_capacity batch.new }
    ensures hand { length batch.new.items < max → hand.new.items ≡ [] }
    ensures spares { All IsSpare spares.new.items }
    ensures empty { length batch.new.items < max →
        Saw T.letter T.tag_of T.fits pass.new.me.view.client [] }
{
    for _ in rt.forever() {
        if batch.len() >= max {
            return;
        }
        if is_empty(queue, pass) {
            return;
        }
        match pop(rt, queue, pass) {
            Some(parcel) => unpack(parcel, hand, spares, batch, max),
            None => return,
        }
    }
    unreachable!()
}

impl<T: Tagged + Drop> RecvEnd<T> {
    /// How many messages it has taken, which is how many it has handed out.
    pub fn taken(&self) -> u64
        ensures length { result ≡ length self.now.taken }
        ensures bound { result < above_all_sent }
    {
        self.taken
    }

    /// Takes up to `max` messages, oldest first, into an empty vector that has the room, and keeps it. The ring is not
    /// closed.
    ///
    /// What is in hand of a run comes first; where that is enough, the queue is left alone. Then parcels come off the queue
    /// one by one, and what goes past `max` stays in hand. There are fewer than `max` only where nothing is in hand and the
    /// queue was empty at a moment of the call. Each message fits the ring, and its tag names one of the ring's senders.
    ///
    /// That a waiting message is taken is shown by tests alone: a look at an empty queue, which is two loads, leaves no mark
    /// that a clause could name.
    #[inline(always)]
    pub fn take_into<R: Wait>(&mut self, rt: &R, max: usize, batch: &mut Vec<T>)
        requires room { (batch.old.items ≡ []) × (max ≤ vec_capacity batch.old) }
        requires not_closed { self.old.closed ≡ 0 }
        ensures taken { self.new ≡ record self.old {
          taken = self.old.taken ++ map T.letter batch.new.items;
          hand = self.new.hand;
        } }
        ensures order { InTurn self.old.hand (map T.letter batch.new.items) self.new.hand }
        ensures each { AllFit T.letter T.tag_of T.fits self.old.number self.old.family self.old.senders batch.new.items }
        ensures count { length batch.new.items ≤ max }
        ensures fewer { length batch.new.items < max →
            (self.new.hand ≡ []) × EmptyAt T.letter T.tag_of T.fits self.new }
        ensures in_hand { max ≤ length self.old.hand →
            self.old.hand ≡ map T.letter batch.new.items ++ self.new.hand }
        ensures room { vec_capacity batch.old ≤ vec_capacity batch.new }
    {
        hand_out(&mut self.hand, batch, max);
        fill(
            rt,
            &self.shared.queue,
            &mut self.pass,
            &mut self.hand,
            &mut self.spares,
            batch,
            max,
        );
        self.taken += batch.len() as u64;
    }

    /// A vector that a run came in, emptied, for a run to be sent, if one is kept. It has room for one message at least.
    ///
    /// How many are kept, and that one is kept of a run that was handed out, is shown by a test and by `bench/ring.sh`.
    pub fn spare(&mut self) -> Option<Vec<T>>
        ensures same { self.new ≡ self.old }
        ensures spare { IfSome result IsSpare }
    {
        self.spares.pop()
    }

    /// Closes the ring, if every message that was sent was taken and no sender is inside a send.
    ///
    /// `NotYet` has the latch's word, which is another than 2^17 times what was taken. Where a message is still in hand, the
    /// word is another too: that is shown by a test.
    pub fn close(&mut self) -> Closing
        requires { IsSome self.old.latch × (self.old.closed ≡ 0) }
        ensures same { self.new ≡ record self.old {
          closed = self.new.closed;
          tries = self.new.tries;
          seen = self.new.seen;
        } }
        ensures closed { result ≡ Closing.Closed → self.new ≡ record self.old { closed = 1 } }
        ensures not_yet { (seen : ℕ) → result ≡ Closing.NotYet seen →
            self.new ≡ record self.old { tries = self.old.tries + 1; seen = seen } }
        ensures other_word { (seen : ℕ) → result ≡ Closing.NotYet seen →
            seen ≢ length self.old.taken * finished_unit }
    {
        latching::close(&mut self.latch, self.taken)
    }
}
