//! What is known of a ring once all its ends are in one hand.
ghost use Rattle.std.specs.Prelude.{◌≡◌, ℕ, ◌+◌, ◌<◌, ◌≤◌, true, false, [], ◌∷◌, ◌++◌, length, map, slice_index_or, All, IfOk, OnOk};
ghost use Rattle.crossbeam_queue.specs.SegTies.{IsSegPassOf};
ghost use Rattle.lw_base.specs.Letters.{sent_by, list_at, Numbered};
ghost use Rattle.lw_latch.specs.RingWord.{above_all_sent};
ghost use Rattle.lw_ring.specs.Queue.{contents, AllFit, TakenOff, Saw};
ghost use Rattle.lw_ring.specs.Calls.{InTurn};
ghost use Rattle.lw_ring.specs.Ends.{IsEnd};
ghost use Rattle.lw_ring.specs.Settling.{AreAllEnds, all_sent, all_found, whole};

use crate::ends::SendEnd;
use crate::latching;
use crate::parcel::Parcel;
use crate::queue::{Dealing, Pass, Queue};
use crate::recv::{RecvEnd, pop};
use lw_base::{NoMemory, Tagged};
use std::alloc::Global;
use std::sync::Wait;

/// How many messages a sender sent, and how many of them the receiver had taken when the ring was settled.
#[derive(Clone, Copy, PartialEq, Eq, Debug)]
pub struct Pair {
    pub sent: u64,
    pub run: u64,
}

/// A ring whose ends are all in one hand.
#[derive(Drop)]
pub struct Settled<T: Tagged + Drop> {
    /// One pair a sender, by its number.
    pub counts: Vec<Pair>,
    /// What was sent and not taken, oldest first.
    pub left: Vec<T>,
    /// The receiving end, which has taken what is left too.
    pub recv: RecvEnd<T>,
}

/// Settles a ring: takes what is left, and counts what each sender sent and how much of it had been taken.
///
/// What is left was in the receiver's hand, and then in the queue. Of each sender, what had been taken and then its part of
/// what is left is what it sent, numbered from 0. Of a closed ring nothing is in hand and nothing is left, and where a
/// sender was refused as `Exited` the ring is closed. The ends are all of the ring's, in order. Without memory they are
/// dropped.
pub fn settle<T: Tagged + Drop, R: Wait>(
    rt: &R,
    alloc: Global,
    recv: RecvEnd<T>,
    ends: Vec<SendEnd<T>>,
) -> Result<Settled<T>, NoMemory>
    requires start { recv.known ≡ [] }
    requires all { AreAllEnds recv ends.items }
    ensures recv { IfOk result (λ s. s.recv ≡ record recv {
      taken = recv.taken ++ map T.letter s.left.items;
      hand = [];
      known = all_sent ends.items;
      found = recv.found + all_found ends.items;
    }) }
    ensures each { IfOk result (λ s. (p : ℕ) →
        sent_by T.tag_of p (recv.taken ++ map T.letter s.left.items) ≡ list_at (all_sent ends.items) p) }
    ensures numbered { IfOk result (λ _. (k : ℕ) → k < recv.senders →
        Numbered T.tag_of k (list_at (all_sent ends.items) k)) }
    ensures senders { IfOk result (λ s. length s.counts.items ≡ recv.senders) }
    ensures counts { IfOk result (λ s. (k : ℕ) (d : _) → k < recv.senders →
        slice_index_or s.counts.items k d ≡ record {
          sent = length (list_at (all_sent ends.items) k);
          run = length (sent_by T.tag_of k recv.taken);
        }) }
    ensures fits { IfOk result (λ s.
        AllFit T.letter T.tag_of T.fits recv.number recv.family recv.senders s.left.items) }
    ensures order { IfOk result (λ s. InTurn recv.hand (map T.letter s.left.items) []) }
    ensures closed { IfOk result (λ s. recv.closed ≡ 1 → (recv.hand ≡ []) × (s.left.items ≡ [])) }
    ensures exited { IfOk result (λ _. 1 ≤ all_found ends.items → recv.closed ≡ 1) }
{
    let (recv, mut counts) = take_all_in(alloc, recv, ends)?;
    let (recv, left) = empty(rt, alloc, recv)?;
    discount(counts.as_mut_slice(), left.as_slice());
    Ok(Settled { counts, left, recv })
}

// Takes all senders in, and counts what each has sent.
fn take_all_in<T: Tagged + Drop>(
    alloc: Global,
    mut recv: RecvEnd<T>,
    ends: Vec<SendEnd<T>>,
) -> Result<(RecvEnd<T>, Vec<Pair>), NoMemory>
    requires start { recv.known ≡ [] }
    requires all { AreAllEnds recv ends.items }
    ensures recv { IfOk result (λ r. r.0 ≡ record recv {
      known = all_sent ends.items;
      found = recv.found + all_found ends.items;
    }) }
    ensures counts { IfOk result (λ r. r.1.items ≡ map whole (all_sent ends.items)) }
    ensures numbered { IfOk result (λ r. (k : ℕ) → k < length r.0.known →
        Numbered T.tag_of k (list_at r.0.known k)) }
{
    let mut counts = Vec::new(alloc);
    for end in ends {
        counts.push(Pair {
            sent: end.sent(),
            run: end.sent(),
        })?;
        take_in(&mut recv, end);
    }
    Ok((recv, counts))
}

// Takes the next sender in. From then on the receiver knows what that sender knew.
fn take_in<T: Tagged + Drop>(recv: &mut RecvEnd<T>, end: SendEnd<T>)
    requires end { IsEnd recv.old (length recv.old.known) end }
    requires waiting { length recv.old.known < recv.old.senders }
    ensures { recv.new ≡ record recv.old {
      known = recv.old.known ++ end.sent ∷ [];
      found = recv.old.found + end.found;
    } }
{
    let SendEnd {
        shared: _,
        pass,
        latch,
        sender: _,
        sent: _,
        gap: _,
    } = end;
    recv.shared.queue.absorb::<Dealing>(&mut recv.pass, pass);
    latching::take_in(&mut recv.latch, latch);
}

// Takes what is left, with all senders taken in.
fn empty<T: Tagged + Drop, R: Wait>(
    rt: &R,
    alloc: Global,
    recv: RecvEnd<T>,
) -> Result<(RecvEnd<T>, Vec<T>), NoMemory>
    requires { length recv.known ≡ recv.senders }
    ensures recv { IfOk result (λ r.
        r.0 ≡ record recv { taken = recv.taken ++ map T.letter r.1.items; hand = [] }) }
    ensures each { IfOk result (λ r. (p : ℕ) →
        sent_by T.tag_of p (recv.taken ++ map T.letter r.1.items) ≡ list_at recv.known p) }
    ensures fits { IfOk result (λ r.
        AllFit T.letter T.tag_of T.fits recv.number recv.family recv.senders r.1.items) }
    ensures order { IfOk result (λ r. InTurn recv.hand (map T.letter r.1.items) []) }
    ensures closed { IfOk result (λ r. recv.closed ≡ 1 → (recv.hand ≡ []) × (r.1.items ≡ [])) }
    ensures found { 1 ≤ recv.found → recv.closed ≡ 1 }
{
    let RecvEnd {
        shared,
        mut pass,
        mut latch,
        senders,
        taken,
        mut hand,
        spares,
    } = recv;
    latching::learn(&mut latch);
    hand.reverse();
    let left = drain(rt, &shared.queue, &mut pass, hand)?;
    let taken = taken + left.len() as u64;
    let recv = RecvEnd {
        shared,
        pass,
        latch,
        senders,
        taken,
        hand: Vec::new(alloc),
        spares,
    };
    Ok((recv, left))
}

// Takes off the queue what waits, behind what was in hand.
fn drain<T: Tagged + Drop, R: Wait>(
    rt: &R,
    queue: &Queue<T>,
    pass: &mut Pass<T>,
    mut left: Vec<T>,
) -> Result<Vec<T>, NoMemory>
    requires queue { IsSegPassOf queue.now pass.old }
    requires receiver { (pass.old.me.view.client.fresh ≡ false) × (pass.old.me.view.client.gets ≡ true) }
    requires short { length pass.old.me.view.client.got < above_all_sent }
    ensures queue { IfOk result (λ _. IsSegPassOf queue.now pass.new) }
    ensures off { IfOk result (λ all. TakenOff T.letter T.tag_of T.fits pass.old.me.view.client
        pass.new.me.view.client left.items all.items) }
    ensures empty { IfOk result (λ _. Saw T.letter T.tag_of T.fits pass.new.me.view.client []) }
{
    for _ in rt.forever() {
        match pop(rt, queue, pass) {
            Some(parcel) => add_all(&mut left, parcel)?,
            None => return Ok(left),
        }
    }
    unreachable!()
}

// The messages of a parcel go behind the others.
fn add_all<T: Tagged + Drop>(left: &mut Vec<T>, parcel: Parcel<T>) -> Result<(), NoMemory>
    ensures { OnOk result (left.new.items ≡ left.old.items ++ contents parcel) }
{
    match parcel {
        Parcel::One(value) => left.push(value)?,
        Parcel::Run(mut run) => left.append(&mut run)?,
    }
    Ok(())
}

// What is left of each sender had not been taken.
fn discount<T: Tagged>(counts: &mut [Pair], left: &[T])
    requires senders { All (λ x. (T.tag_of (T.letter x)).sender < length counts.old) left.now }
    requires enough { (k : ℕ) (d : _) → k < length counts.old →
        length (sent_by T.tag_of k (map T.letter left.now)) ≤ (slice_index_or counts.old k d).run }
    ensures { (k : ℕ) (d : _) → k < length counts.old →
        ((slice_index_or counts.new k d).sent ≡ (slice_index_or counts.old k d).sent)
        × ((slice_index_or counts.new k d).run
        + length (sent_by T.tag_of k (map T.letter left.now)) ≡ (slice_index_or counts.old k d).run) }
{
    for value in left {
        let sender = value.tag().sender as usize;
        counts[sender].run -= 1;
    }
}
