//! The counting thread, with what it stands on.
ghost use Rattle.std.specs.Prelude.{◌≡◌, [], All, IfOk, Some, false};
ghost use Rattle.lw_place.specs.PlaceSeats.{IsList};
ghost use Rattle.lw_load.specs.LoadEnds.{new_pass};
ghost use Rattle.lw_thread.specs.Threads.{AreItsEnds};

use crate::body::Counter;
use crate::note::Note;
use anyhow::Result;
use lw_base::NoMemory;
use lw_load::{LoadPass, loads};
use lw_place::{Place, Start, ThreadSeat, places};
use lw_ring::{RecvEnd, SendEnd, ring};
use lw_thread::LightThread;
use std::alloc::Global;

/// A run of one thread, in the list of reactor 0, that counts to the goal once it is polled.
pub fn counting(alloc: Global, goal: u32) -> Result<LightThread<Counter>>
    ensures { IfOk result (λ t. IsList t.seat.place × (t.stopped ≡ false)) }
{
    let (recv, ends) = ring_of_one(alloc)?;
    let seat = first_seat(alloc)?;
    let load = first_pass(alloc)?;
    let body = Counter { count: 0, goal };
    let mut thread = LightThread::new(alloc, body, recv, ends, seat, load)?;
    let _poller = thread.add_active()?;
    Ok(thread)
}

// The ring of thread 0, for itself alone.
#[tactic(auto, using(crate::proofs::OneRing::are_ends, crate::proofs::OneRing::none_taken, crate::proofs::OneRing::none_sent))]
fn ring_of_one(alloc: Global) -> Result<(RecvEnd<Note>, Vec<SendEnd<Note>>), NoMemory>
    ensures ends { IfOk result (λ r. AreItsEnds 0 r.0 r.1.items) }
    ensures taken { IfOk result (λ r. r.0.taken ≡ []) }
    ensures sent { IfOk result (λ r. All (λ e. e.sent ≡ []) r.1.items) }
    ensures family { IfOk result (λ r. r.0.family ≡ Some tt) }
{
    ring::<Note>(alloc, 1, 0)
}

// The seat of thread 0, in the list of reactor 0.
fn first_seat(alloc: Global) -> Result<ThreadSeat, NoMemory>
    ensures { IfOk result (λ s. (s.thread ≡ 0) × (s.place ≡ Place.List 0)) }
{
    let starts = [Start::List(0)];
    let (mut seats, _desks) = places(alloc, starts.as_slice(), 1)?;
    Ok(seats.pop().unwrap())
}

// The load pass of thread 0.
fn first_pass(alloc: Global) -> Result<LoadPass, NoMemory>
    ensures { IfOk result (λ p. p ≡ new_pass p.cell 0) }
{
    let (mut passes, _reader) = loads(alloc, 1)?;
    Ok(passes.pop().unwrap())
}
