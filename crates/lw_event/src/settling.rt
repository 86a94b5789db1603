//! What is left of the events once all desks are in one hand.
ghost use Rattle.std.specs.Prelude.{◌≡◌, ℕ, ◌<◌, List, length, slice_index_or, reverse, IfOk};
ghost use Rattle.lw_ring.specs.Settling.{all_sent};
ghost use Rattle.lw_event.specs.Letters.{tag_in};
ghost use Rattle.lw_event.specs.Events.{letter_of, event_fits};
ghost use Rattle.lw_event.specs.Desks.{AreAllDesks};
ghost use Rattle.lw_event.specs.Leaving.{AreLeft, IsRest, joined};
ghost use Rattle.lw_event.specs.Regrouping.{IsPaired, IsRegrouped};

use crate::desk::EventDesk;
use crate::event::Event;
use crate::rows::{deal, empty};
use lw_base::NoMemory;
use lw_ring::{RecvEnd, SendEnd, settle};
use lw_thread::Body;
use std::alloc::Global;
use std::sync::Wait;

/// The receiving end of a ring, and what was taken by it and not handed out, the last first.
#[derive(Drop)]
struct Inbox<B: Body> {
    recv: RecvEnd<Event<B>>,
    batch: Vec<Event<B>>,
}

/// Settles the event rings: all events that were sent and not handed out, by the reactors to which they were sent.
///
/// Of each reactor and each sender, what was handed out and then what is left is what was sent. These are all desks, in
/// order. Without memory they are dropped.
pub fn settle_events<B: Body, R: Wait>(
    rt: &R,
    alloc: Global,
    desks: Vec<EventDesk<B>>,
) -> Result<Vec<Event<B>>, NoMemory>
    requires { AreAllDesks desks.items }
    ensures { IfOk result (λ v. AreLeft desks.items v.items) }
{
    let (inboxes, columns) = regroup(alloc, desks)?;
    settle_each(rt, alloc, inboxes, columns)
}

// Each desk's receiving end, and all ends of its ring.
fn regroup<B: Body>(
    alloc: Global,
    desks: Vec<EventDesk<B>>,
) -> Result<(Vec<Inbox<B>>, Vec<Vec<SendEnd<Event<B>>>>), NoMemory>
    requires { AreAllDesks desks.items }
    ensures count { IfOk result (λ r.
        (length r.0.items ≡ length desks.items) × (length r.1.items ≡ length desks.items)) }
    ensures each { IfOk result (λ r. (k : ℕ) (d i c : _) → k < length desks.items →
        IsRegrouped desks.items k (slice_index_or desks.items k d) (slice_index_or r.0.items k i).recv
        (reverse (slice_index_or r.0.items k i).batch.items) (slice_index_or r.1.items k c).items) }
{
    let mut inboxes = Vec::new(alloc);
    let mut columns = empty(alloc, desks.len())?;
    for desk in desks {
        let EventDesk {
            number: _,
            recv,
            ends,
            batch,
        } = desk;
        deal(&mut columns, ends)?;
        inboxes.push(Inbox { recv, batch })?;
    }
    Ok((inboxes, columns))
}

// Settles each ring, of which all ends are in its column.
fn settle_each<B: Body, R: Wait>(
    rt: &R,
    alloc: Global,
    inboxes: Vec<Inbox<B>>,
    columns: Vec<Vec<SendEnd<Event<B>>>>,
) -> Result<Vec<Event<B>>, NoMemory>
    requires count { length inboxes.items ≡ length columns.items }
    requires each { (k : ℕ) (i c : _) → k < length inboxes.items →
        IsPaired (slice_index_or inboxes.items k i).recv (reverse (slice_index_or inboxes.items k i).batch.items)
        (slice_index_or columns.items k c).items }
    ensures { IfOk result (λ v. (parts : List (List (Event B B.Message B.Message.Letter B.Message.Family)))
        × (length parts ≡ length inboxes.items)
        × (v.items ≡ joined parts)
        × ((k : ℕ) (i c p : _) → k < length inboxes.items → IsRest (slice_index_or inboxes.items k i).recv
        (reverse (slice_index_or inboxes.items k i).batch.items) (all_sent (slice_index_or columns.items k c).items)
        (slice_index_or parts k p))) }
{
    let mut left = Vec::new(alloc);
    let mut columns = columns.into_iter();
    for inbox in inboxes {
        let Some(ends) = columns.next() else {
            unreachable!()
        };
        let mut rest = settle_one(rt, alloc, inbox, ends)?;
        left.append(&mut rest)?;
    }
    Ok(left)
}

// Settles one ring: what was taken and not handed out, and then what wasn't taken.
fn settle_one<B: Body, R: Wait>(
    rt: &R,
    alloc: Global,
    inbox: Inbox<B>,
    ends: Vec<SendEnd<Event<B>>>,
) -> Result<Vec<Event<B>>, NoMemory>
    requires paired { IsPaired inbox.recv (reverse inbox.batch.items) ends.items }
    ensures { IfOk result (λ v. IsRest inbox.recv (reverse inbox.batch.items) (all_sent ends.items) v.items) }
{
    let Inbox { recv, mut batch } = inbox;
    let mut settled = settle(rt, alloc, recv, ends)?;
    batch.reverse();
    batch.append(&mut settled.left)?;
    Ok(batch)
}
