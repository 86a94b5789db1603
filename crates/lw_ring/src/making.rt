//! How a ring is made.
ghost use Rattle.std.specs.Prelude.{◌≡◌, ℕ, ◌<◌, ◌≤◌, [], ◌∷◌, ◌++◌, length, slice_index_or, Some, None, IfOk};
ghost use Rattle.std.specs.Arc.{arc_value};
ghost use Rattle.crossbeam_queue.specs.SegTies.{IsSegPassOf};
ghost use Rattle.lw_latch.specs.RingWord.{most_senders};
ghost use Rattle.lw_ring.specs.Queue.{receiver, one_more};
ghost use Rattle.lw_ring.specs.Ends.{latch_id, found_of, Outside, ReceiverView, new_sender, new_receiver};

use crate::ends::{Gap, SendEnd, Shared};
use crate::queue::{Dealing, Founding, Pass, Queue};
use crate::recv::RecvEnd;
use lw_base::{Naming, NoMemory, Tagged};
use lw_latch::{LatchSend, ring_latch};
use std::alloc::Global;
use std::marker::Brand;
use std::sync::Arc;

/// How many emptied vectors a receiver keeps.
const MOST_SPARES: usize = 8;

/// A new ring that can be closed, for 1 to 127 senders, numbered from 0. Without memory there is none.
///
/// `number` is that of the receiver, which with the family decides what fits.
pub fn ring<T: Tagged + Drop>(
    alloc: Global,
    senders: u32,
    number: u32,
) -> Result<(RecvEnd<T>, Vec<SendEnd<T>>), NoMemory>
    ghost family: { T.Family }
    requires { (1 ≤ senders) × (senders ≤ most_senders) }
    ensures recv { IfOk result (λ r. (latch : _) ×
        (r.0 ≡ new_receiver r.0.queue (Some latch) number (Some family) senders)) }
    ensures count { IfOk result (λ r. length r.1.items ≡ senders) }
    ensures ends { IfOk result (λ r. (k : ℕ) (d : _) → k < senders →
        slice_index_or r.1.items k d ≡ new_sender r.0.queue r.0.latch number (Some family) k) }
{
    ring_as::<T, Brand>(alloc, senders, number)
}

/// A new open ring: it has no latch, and is never closed. The rest is as for `ring`.
pub fn open_ring<T: Tagged + Drop>(
    alloc: Global,
    senders: u32,
    number: u32,
) -> Result<(RecvEnd<T>, Vec<SendEnd<T>>), NoMemory>
    ghost family: { T.Family }
    requires { (1 ≤ senders) × (senders ≤ most_senders) }
    ensures recv { IfOk result (λ r.
        r.0 ≡ new_receiver r.0.queue None number (Some family) senders) }
    ensures count { IfOk result (λ r. length r.1.items ≡ senders) }
    ensures ends { IfOk result (λ r. (k : ℕ) (d : _) → k < senders →
        slice_index_or r.1.items k d ≡ new_sender r.0.queue None number (Some family) k) }
{
    open_ring_as::<T, Brand>(alloc, senders, number)
}

/// `ring`, where the type `B` names the number and the family. So a caller can keep the family in a type of its own, as
/// where the message is generic. The number is an argument too, by which a `Brand` can be chosen.
pub fn ring_as<T: Tagged + Drop, B: Naming<T::Family>>(
    alloc: Global,
    senders: u32,
    number: u32,
) -> Result<(RecvEnd<T>, Vec<SendEnd<T>>), NoMemory>
    requires senders { (1 ≤ senders) × (senders ≤ most_senders) }
    requires number { number ≡ B.number }
    ensures recv { IfOk result (λ r. (latch : _) ×
        (r.0 ≡ new_receiver r.0.queue (Some latch) B.number B.family senders)) }
    ensures count { IfOk result (λ r. length r.1.items ≡ senders) }
    ensures ends { IfOk result (λ r. (k : ℕ) (d : _) → k < senders →
        slice_index_or r.1.items k d ≡ new_sender r.0.queue r.0.latch B.number B.family k) }
{
    let (latch, mut latches) = ring_latch(alloc, senders)?;
    let (shared, mut pass) = found::<T, B>(alloc)?;
    let mut ends = Vec::new(alloc);
    for sender in 0..senders {
        let theirs = next(&mut latches);
        ends.push(deal(&shared, &mut pass, Some(theirs), sender)?)?;
    }
    let recv = RecvEnd {
        shared,
        pass,
        latch: Some(latch),
        senders,
        taken: 0,
        hand: Vec::new(alloc),
        spares: Vec::with_capacity(alloc, MOST_SPARES)?,
    };
    Ok((recv, ends))
}

/// `open_ring`, where the type `B` names the number and the family, as in `ring_as`.
pub fn open_ring_as<T: Tagged + Drop, B: Naming<T::Family>>(
    alloc: Global,
    senders: u32,
    number: u32,
) -> Result<(RecvEnd<T>, Vec<SendEnd<T>>), NoMemory>
    requires senders { (1 ≤ senders) × (senders ≤ most_senders) }
    requires number { number ≡ B.number }
    ensures recv { IfOk result (λ r.
        r.0 ≡ new_receiver r.0.queue None B.number B.family senders) }
    ensures count { IfOk result (λ r. length r.1.items ≡ senders) }
    ensures ends { IfOk result (λ r. (k : ℕ) (d : _) → k < senders →
        slice_index_or r.1.items k d ≡ new_sender r.0.queue None B.number B.family k) }
{
    let (shared, mut pass) = found::<T, B>(alloc)?;
    let mut ends = Vec::new(alloc);
    for sender in 0..senders {
        ends.push(deal(&shared, &mut pass, None, sender)?)?;
    }
    let recv = RecvEnd {
        shared,
        pass,
        latch: None,
        senders,
        taken: 0,
        hand: Vec::new(alloc),
        spares: Vec::with_capacity(alloc, MOST_SPARES)?,
    };
    Ok((recv, ends))
}

// A new queue, with the receiver's pass.
fn found<T: Tagged + Drop, B: Naming<T::Family>>(
    alloc: Global,
) -> Result<(Arc<Shared<T>, Global>, Pass<T>), NoMemory>
    ensures pass { IfOk result (λ r. IsSegPassOf (arc_value r.0).queue r.1) }
    ensures view { IfOk result (λ r. r.1.me.view.client ≡ receiver B.number B.family 0) }
{
    let (queue, mut pass) = Queue::<T>::with_rule(alloc)?;
    drop(queue.another::<Founding<B>>(&mut pass));
    let shared = Shared {
        before: Gap::new(),
        queue,
        behind: Gap::new(),
    };
    let shared = Arc::new(alloc, shared)?;
    Ok((shared, pass))
}

// One more sender's end, with a pass split off the receiver's.
fn deal<T: Tagged + Drop>(
    shared: &Arc<Shared<T>, Global>,
    pass: &mut Pass<T>,
    latch: Option<LatchSend>,
    sender: u32,
) -> Result<SendEnd<T>, NoMemory>
    requires queue { IsSegPassOf (arc_value shared.now).queue pass.old }
    requires receiver { ReceiverView pass.old.me.view.client sender 0 × (sender < most_senders) }
    requires latch { Outside latch 0 × (found_of latch ≡ 0) }
    ensures pass { IfOk result (λ e.
        IsSegPassOf (arc_value shared.now).queue pass.new
        × (pass.new.me.view.client ≡ one_more pass.old.me.view.client)) }
    ensures end { IfOk result (λ e. e ≡ new_sender (arc_value shared.now).queue (latch_id latch)
        pass.old.me.view.client.number pass.old.me.view.client.family sender) }
{
    let theirs = Arc::try_clone(shared)?;
    let given = shared.queue.another::<Dealing>(pass);
    Ok(SendEnd {
        shared: theirs,
        pass: given,
        latch,
        sender,
        sent: 0,
        gap: Gap::new(),
    })
}

// The last of the latch's seats.
fn next(latches: &mut Vec<LatchSend>) -> LatchSend
    requires { 0 < length latches.old.items }
    ensures { latches.old.items ≡ latches.new.items ++ result ∷ [] }
{
    latches.pop().unwrap()
}
