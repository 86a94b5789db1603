//! What the tests' threads are made of.
ghost use Rattle.std.specs.Prelude.{◌≡◌, ◌≢◌, ◌<◌, [], ◌∷◌, Some, IfOk, false};
ghost use Rattle.lw_place.specs.PlaceWord.{start_place, IsBelow};
ghost use Rattle.lw_ring.specs.Ends.{new_sender, new_receiver};
ghost use Rattle.lw_load.specs.LoadEnds.{new_pass};
ghost use Rattle.lw_thread.specs.Runs.{IsRowEnd};
ghost use Rattle.lw_thread_tests.specs.Turns.{GoesOn};
ghost use Rattle.lw_thread_tests.specs.Rings.{AreOfRing};

use crate::players::{Note, Player, player_of};
use crate::plays::Plan;
use lw_base::NoMemory;
use lw_load::{LoadPass, loads};
use lw_place::{Place, Start, ThreadSeat, places};
use lw_ring::{RecvEnd, SendEnd, ring};
use lw_thread::LightThread;
use std::alloc::Global;

/// The seats of two threads, the first in the list of reactor 0, of 2 reactors.
pub fn seats(alloc: Global, second: Start) -> Result<(ThreadSeat, ThreadSeat), NoMemory>
    requires { IsBelow 2 (start_place second) }
    ensures first { IfOk result (λ r. (r.0.thread ≡ 0) × (r.0.place ≡ Place.List 0)) }
    ensures second { IfOk result (λ r. (r.1.thread ≡ 1) × (r.1.place ≡ start_place second)) }
    ensures reactors { IfOk result (λ r. r.0.places.reactors ≡ 2) }
{
    let starts = [Start::List(0), second];
    let (mut threads, _desks) = places(alloc, starts.as_slice(), 2)?;
    let second = threads.pop().unwrap();
    let first = threads.pop().unwrap();
    Ok((first, second))
}

/// The load passes of two threads.
pub fn passes(alloc: Global) -> Result<(LoadPass, LoadPass), NoMemory>
    ensures first { IfOk result (λ r. r.0 ≡ new_pass r.0.cell 0) }
    ensures second { IfOk result (λ r. r.1 ≡ new_pass r.1.cell 1) }
{
    let (mut all, _reader) = loads(alloc, 2)?;
    let second = all.pop().unwrap();
    let first = all.pop().unwrap();
    Ok((first, second))
}

/// The ring of the thread of this number, for two senders.
pub fn ring_of(
    alloc: Global,
    number: u32,
) -> Result<(RecvEnd<Note>, SendEnd<Note>, SendEnd<Note>), NoMemory>
    ensures recv { IfOk result (λ r. (latch : _) × (r.0 ≡ new_receiver r.0.queue (Some latch) number (Some tt) 2)) }
    ensures first { IfOk result (λ r. r.1 ≡ new_sender r.0.queue r.0.latch number (Some tt) 0) }
    ensures second { IfOk result (λ r. r.2 ≡ new_sender r.0.queue r.0.latch number (Some tt) 1) }
{
    let (recv, mut ends) = ring::<Note>(alloc, 2, number)?;
    let second = ends.pop().unwrap();
    let first = ends.pop().unwrap();
    Ok((recv, first, second))
}

/// A light thread of this body: its ring's receiving end, its ends to threads 0 and 1, its seat and its pass.
#[tactic(auto, using(crate::proofs::Pairs::pair_ends, crate::proofs::Pairs::pair_unused))]
pub fn light(
    alloc: Global,
    body: Player,
    recv: RecvEnd<Note>,
    to_first: SendEnd<Note>,
    to_second: SendEnd<Note>,
    seat: ThreadSeat,
    load: LoadPass,
) -> Result<LightThread<Player>, NoMemory>
    requires recv { (latch : _) × (recv ≡ new_receiver recv.queue (Some latch) seat.thread (Some tt) 2) }
    requires first { (to_first.sent ≡ []) × IsRowEnd (Some tt) seat.thread 0 to_first }
    requires second { (to_second.sent ≡ []) × IsRowEnd (Some tt) seat.thread 1 to_second }
    requires seat { (seat.thread < 2) × (seat.place ≢ Place.Ended) }
    requires load { load ≡ new_pass load.cell seat.thread }
    ensures seat { IfOk result (λ t. (t.seat ≡ seat) × (t.stopped ≡ false) × (t.trail ≡ [])) }
    ensures ends { IfOk result (λ t. (t.recv ≡ recv) × (t.ends ≡ to_first ∷ to_second ∷ [])) }
{
    let ends = row(alloc, to_first, to_second)?;
    LightThread::new(alloc, body, recv, ends, seat, load)
}

/// Two ends.
pub fn row(
    alloc: Global,
    first: SendEnd<Note>,
    second: SendEnd<Note>,
) -> Result<Vec<SendEnd<Note>>, NoMemory>
    ensures { IfOk result (λ v. v.items ≡ first ∷ second ∷ []) }
{
    let mut ends = Vec::new(alloc);
    ends.push(first)?;
    ends.push(second)?;
    Ok(ends)
}

/// Threads 0 and 1 with these bodies, in the list of reactor 0.
pub fn two(
    alloc: Global,
    first: Player,
    second: Player,
) -> Result<(LightThread<Player>, LightThread<Player>), NoMemory>
    ensures first { IfOk result (λ r. GoesOn r.0) }
    ensures second { IfOk result (λ r. GoesOn r.1) }
    ensures ring { IfOk result (λ r. AreOfRing r.1.recv r.0.ends r.1.ends) }
{
    two_from(alloc, first, second, Start::List(0))
}

/// The same, where thread 1 starts so.
#[tactic(auto, using(crate::proofs::Rings::new_ring))]
pub fn two_from(
    alloc: Global,
    first: Player,
    second: Player,
    start: Start,
) -> Result<(LightThread<Player>, LightThread<Player>), NoMemory>
    requires { IsBelow 2 (start_place start) }
    ensures first { IfOk result (λ r. GoesOn r.0) }
    ensures second { IfOk result (λ r. (r.1.stopped ≡ false) × (r.1.seat.place ≡ start_place start)) }
    ensures ring { IfOk result (λ r. AreOfRing r.1.recv r.0.ends r.1.ends) }
{
    let (recv_0, first_0, second_0) = ring_of(alloc, 0)?;
    let (recv_1, first_1, second_1) = ring_of(alloc, 1)?;
    let (seat_0, seat_1) = seats(alloc, start)?;
    let (load_0, load_1) = passes(alloc)?;
    let one = light(alloc, first, recv_0, first_0, first_1, seat_0, load_0)?;
    let other = light(alloc, second, recv_1, second_0, second_1, seat_1, load_1)?;
    Ok((one, other))
}

/// A thread 0 that has this plan, and a thread 1 that asks to end at the note of value `last`.
pub fn one_with(
    alloc: Global,
    plan: Plan,
    last: u32,
) -> Result<(LightThread<Player>, LightThread<Player>), NoMemory>
    ensures first { IfOk result (λ r. GoesOn r.0) }
    ensures second { IfOk result (λ r. GoesOn r.1) }
    ensures ring { IfOk result (λ r. AreOfRing r.1.recv r.0.ends r.1.ends) }
{
    let first = player_of(alloc, plan, u32::MAX);
    let second = player_of(alloc, Plan::Rest, last);
    two(alloc, first, second)
}
