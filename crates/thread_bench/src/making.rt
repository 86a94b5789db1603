//! What the light threads are made of.
ghost use Rattle.std.specs.Prelude.{◌≡◌, ◌≢◌, ◌<◌, [], ◌∷◌, length, Some, IfOk, false};
ghost use Rattle.lw_ring.specs.Ends.{new_sender, new_receiver};
ghost use Rattle.lw_load.specs.LoadEnds.{new_pass};
ghost use Rattle.lw_thread.specs.Runs.{IsRowEnd};

use crate::note::Note;
use crate::volley::Volley;
use lw_base::NoMemory;
use lw_load::{LoadPass, loads};
use lw_place::{Place, Start, ThreadSeat, places};
use lw_ring::{RecvEnd, SendEnd, ring};
use lw_thread::LightThread;
use std::alloc::Global;

/// Two light threads of one run. The first one's poller sends `serve` messages to the second one, and each sends what comes to the
/// other.
pub fn two(
    alloc: Global,
    serve: u32,
) -> Result<(LightThread<Volley>, LightThread<Volley>), NoMemory>
    ensures first { IfOk result (λ r. (r.0.stopped ≡ false) × (length r.0.ends ≡ 2)) }
    ensures second { IfOk result (λ r. (r.1.stopped ≡ false) × (length r.1.ends ≡ 2)) }
{
    let (recv_0, first_0, second_0) = ring_of(alloc, 0)?;
    let (recv_1, first_1, second_1) = ring_of(alloc, 1)?;
    let (seat_0, seat_1) = seats(alloc)?;
    let (load_0, load_1) = passes(alloc)?;
    let first = Volley { to: 1, serve };
    let second = Volley { to: 0, serve: 0 };
    let one = light(alloc, first, recv_0, first_0, first_1, seat_0, load_0)?;
    let other = light(alloc, second, recv_1, second_0, second_1, seat_1, load_1)?;
    Ok((one, other))
}

// The seats of two threads in the list of reactor 0.
fn seats(alloc: Global) -> Result<(ThreadSeat, ThreadSeat), NoMemory>
    ensures first { IfOk result (λ r. (r.0.thread ≡ 0) × (r.0.place ≡ Place.List 0)) }
    ensures second { IfOk result (λ r. (r.1.thread ≡ 1) × (r.1.place ≡ Place.List 0)) }
{
    let starts = [Start::List(0), Start::List(0)];
    let (mut threads, _desks) = places(alloc, starts.as_slice(), 1)?;
    let second = threads.pop().unwrap();
    let first = threads.pop().unwrap();
    Ok((first, second))
}

// The load passes of two threads.
fn passes(alloc: Global) -> Result<(LoadPass, LoadPass), NoMemory>
    ensures first { IfOk result (λ r. r.0 ≡ new_pass r.0.cell 0) }
    ensures second { IfOk result (λ r. r.1 ≡ new_pass r.1.cell 1) }
{
    let (mut all, _reader) = loads(alloc, 2)?;
    let second = all.pop().unwrap();
    let first = all.pop().unwrap();
    Ok((first, second))
}

// The ring of the thread of this number, for two senders.
fn ring_of(
    alloc: Global,
    number: u32,
) -> Result<(RecvEnd<Note>, SendEnd<Note>, SendEnd<Note>), NoMemory>
    ensures recv { IfOk result (λ r. (latch : _) × (r.0 ≡ new_receiver r.0.queue (Some latch) number (Some tt) 2)) }
    ensures first { IfOk result (λ r. r.1 ≡ new_sender r.0.queue r.0.latch number (Some tt) 0) }
    ensures second { IfOk result (λ r. r.2 ≡ new_sender r.0.queue r.0.latch number (Some tt) 1) }
{
    let (recv, mut ends) = ring::<Note>(alloc, 2, number)?;
    let second = ends.pop().unwrap();
    let first = ends.pop().unwrap();
    Ok((recv, first, second))
}

// A light thread of this body: its ring's receiving end, its ends to threads 0 and 1, its seat and its pass.
#[tactic(auto, using(crate::proofs::Pairs::pair_ends, crate::proofs::Pairs::pair_unused))]
fn light(
    alloc: Global,
    body: Volley,
    recv: RecvEnd<Note>,
    to_first: SendEnd<Note>,
    to_second: SendEnd<Note>,
    seat: ThreadSeat,
    load: LoadPass,
) -> Result<LightThread<Volley>, NoMemory>
    requires recv { (latch : _) × (recv ≡ new_receiver recv.queue (Some latch) seat.thread (Some tt) 2) }
    requires first { (to_first.sent ≡ []) × IsRowEnd (Some tt) seat.thread 0 to_first }
    requires second { (to_second.sent ≡ []) × IsRowEnd (Some tt) seat.thread 1 to_second }
    requires seat { (seat.thread < 2) × (seat.place ≢ Place.Ended) }
    requires load { load ≡ new_pass load.cell seat.thread }
    ensures { IfOk result (λ t. (t.seat ≡ seat) × (t.stopped ≡ false) × (length t.ends ≡ 2)) }
{
    let ends = row(alloc, to_first, to_second)?;
    LightThread::new(alloc, body, recv, ends, seat, load)
}

// A thread's two ends.
fn row(
    alloc: Global,
    first: SendEnd<Note>,
    second: SendEnd<Note>,
) -> Result<Vec<SendEnd<Note>>, NoMemory>
    ensures { IfOk result (λ v. v.items ≡ first ∷ second ∷ []) }
{
    let mut ends = Vec::new(alloc);
    ends.push(first)?;
    ends.push(second)?;
    Ok(ends)
}
