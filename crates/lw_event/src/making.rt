//! How the event rings of a run are made.
ghost use Rattle.std.specs.Prelude.{◌≡◌, ℕ, ◌<◌, ◌≤◌, [], length, map, slice_index_or, IfOk};
ghost use Rattle.lw_place.specs.PlaceWord.{most_reactors};
ghost use Rattle.lw_thread.specs.Runs.{RunId, ring_of_recv};
ghost use Rattle.lw_event.specs.Desks.{AreNewDesks};
ghost use Rattle.lw_event.specs.Making.{AreParts, AreNewRecvs, IsNewRow, new_desk};

use crate::desk::{EventDesk, MOST_TAKEN};
use crate::event::Event;
use crate::rows::{deal, empty};
use lw_base::NoMemory;
use lw_ring::{RecvEnd, SendEnd, open_ring_as};
use lw_thread::Body;
use std::alloc::Global;
use std::marker::Brand;

/// The event rings of a run: a desk for each of its 1 to 16 reactors, in order. It fails for want of memory alone.
pub fn event_rings<B: Body>(alloc: Global, reactors: u32) -> Result<Vec<EventDesk<B>>, NoMemory>
    ghost run: { RunId B.Message.Family }
    requires range { (1 ≤ reactors) × (reactors ≤ most_reactors) }
    requires run { run.places.reactors ≡ reactors }
    ensures { IfOk result (λ v. AreNewDesks run reactors v.items) }
{
    let (recvs, rows) = rings::<B>(alloc, reactors)?;
    desks(alloc, recvs, rows)
}

// So many rings: the receiving ends, and the k-th end of each ring in row k.
fn rings<B: Body>(
    alloc: Global,
    count: u32,
) -> Result<(Vec<RecvEnd<Event<B>>>, Vec<Vec<SendEnd<Event<B>>>>), NoMemory>
    ghost run: { RunId B.Message.Family }
    requires { (1 ≤ count) × (count ≤ most_reactors) }
    ensures count { IfOk result (λ r. (length r.0.items ≡ count) × (length r.1.items ≡ count)) }
    ensures recvs { IfOk result (λ r. AreNewRecvs run count r.0.items) }
    ensures rows { IfOk result (λ r. (k : ℕ) (e : _) → k < count →
        IsNewRow run (map ring_of_recv r.0.items) k (slice_index_or r.1.items k e).items) }
{
    let mut recvs = Vec::new(alloc);
    let mut rows = empty(alloc, count as usize)?;
    for number in 0..count {
        let (recv, ends) = open_ring_as::<Event<B>, Brand>(alloc, count, number)?;
        deal(&mut rows, ends)?;
        recvs.push(recv)?;
    }
    Ok((recvs, rows))
}

// The desks of these rings.
fn desks<B: Body>(
    alloc: Global,
    recvs: Vec<RecvEnd<Event<B>>>,
    rows: Vec<Vec<SendEnd<Event<B>>>>,
) -> Result<Vec<EventDesk<B>>, NoMemory>
    requires count { length rows.items ≡ length recvs.items }
    requires few { length recvs.items ≤ most_reactors }
    requires parts { (k : ℕ) (r e : _) → k < length recvs.items →
        AreParts k (slice_index_or recvs.items k r) (slice_index_or rows.items k e).items }
    ensures count { IfOk result (λ v. length v.items ≡ length recvs.items) }
    ensures each { IfOk result (λ v. (k : ℕ) (d r e : _) → k < length recvs.items →
        slice_index_or v.items k d ≡ new_desk k (slice_index_or recvs.items k r) (slice_index_or rows.items k e).items) }
{
    let mut rows = rows.into_iter();
    let mut desks = Vec::new(alloc);
    let mut number = 0;
    for recv in recvs {
        let Some(ends) = rows.next() else {
            unreachable!()
        };
        desks.push(desk(alloc, number, recv, ends)?)?;
        number += 1;
    }
    Ok(desks)
}

// The desk of a reactor.
fn desk<B: Body>(
    alloc: Global,
    number: u32,
    recv: RecvEnd<Event<B>>,
    ends: Vec<SendEnd<Event<B>>>,
) -> Result<EventDesk<B>, NoMemory>
    requires parts { AreParts number recv ends.items }
    ensures { IfOk result (λ d. d ≡ new_desk number recv ends.items) }
{
    Ok(EventDesk {
        number,
        recv,
        ends,
        batch: Vec::with_capacity(alloc, MOST_TAKEN)?,
    })
}
