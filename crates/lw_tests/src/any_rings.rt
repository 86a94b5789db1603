//! Rings without a latch, rings that a type of the caller names, and rings of any message.
ghost use Rattle.std.specs.Prelude.{◌≡◌, Some, IfOk, IsSome};

use crate::rings::{Note, have, put, ring_of_one, take};
use lw_base::{Naming, NoMemory, Tagged};
use lw_ring::{Closing, RecvEnd, SendEnd, open_ring, open_ring_as, ring_as};
use std::alloc::Global;
use std::sync::Wait;
use std::test::Fail;
use std::thread;
use std::thread::Threads;

fn open_ring_of_one(alloc: Global) -> Result<(RecvEnd<Note>, SendEnd<Note>), NoMemory>
    ensures recv { IfOk result (λ r. r.0.closed ≡ 0) }
    ensures end { IfOk result (λ r. r.1.family ≡ Some tt) }
{
    let (recv, mut ends) = open_ring::<Note>(alloc, 1, 0)?;
    let end = ends.pop().unwrap();
    Ok((recv, end))
}

#[test]
fn an_open_ring_hands_on_what_is_sent(rt: HostRuntime) -> Result<(), Fail> {
    let (mut recv, mut end) = open_ring_of_one(rt.alloc())?;
    assert!(rt; put(&rt, &mut end, 7).is_ok());
    let got = take(&rt, rt.alloc(), &mut recv, 8)?;
    assert!(rt; have(&got, &[7]));
    Ok(())
}

// Both ends of a ring of any message, each on a machine thread of its own and back.
fn there_and_back<T: Tagged + Drop + Send, R: Threads + Wait + Sync>(
    rt: &R,
    recv: RecvEnd<T>,
    end: SendEnd<T>,
) -> (RecvEnd<T>, SendEnd<T>) {
    thread::join(rt, move || recv, move || end)
}

#[test]
fn ends_of_any_message_go_to_another_machine_thread(rt: HostRuntime) -> Result<(), Fail> {
    let (recv, end) = ring_of_one(rt.alloc())?;
    let (recv, end) = there_and_back(&rt, recv, end);
    assert!(rt; recv.taken() == 0 && end.sent() == 0);
    Ok(())
}

// A ring of any message with one sender, by a caller that leaves its family to the type `B`.
fn ring_named_by<T: Tagged + Drop, B: Naming<T::Family>>(
    alloc: Global,
) -> Result<(RecvEnd<T>, SendEnd<T>), NoMemory>
    requires { 0 ≡ B.number }
    ensures recv { IfOk result (λ r. (r.0.closed ≡ 0) × (r.0.family ≡ B.family) × IsSome r.0.latch) }
    ensures end { IfOk result (λ r. r.1.family ≡ B.family) }
{
    let (recv, mut ends) = ring_as::<T, B>(alloc, 1, 0)?;
    let end = ends.pop().unwrap();
    Ok((recv, end))
}

// The same without a latch.
fn open_ring_named_by<T: Tagged + Drop, B: Naming<T::Family>>(
    alloc: Global,
) -> Result<(RecvEnd<T>, SendEnd<T>), NoMemory>
    requires { 0 ≡ B.number }
    ensures recv { IfOk result (λ r. (r.0.closed ≡ 0) × (r.0.family ≡ B.family)) }
    ensures end { IfOk result (λ r. r.1.family ≡ B.family) }
{
    let (recv, mut ends) = open_ring_as::<T, B>(alloc, 1, 0)?;
    let end = ends.pop().unwrap();
    Ok((recv, end))
}

// The receiver of notes has number 0.
struct NotesRing;

impl Naming<()> for NotesRing {
    ghost use Rattle.std.specs.Prelude.{Some};

    ghost number = { 0 };

    ghost family = { Some tt };
}

#[test]
fn a_type_of_the_caller_names_a_ring(rt: HostRuntime) -> Result<(), Fail> {
    let (mut recv, mut end) = ring_named_by::<Note, NotesRing>(rt.alloc())?;
    assert!(rt; put(&rt, &mut end, 7).is_ok());
    let got = take(&rt, rt.alloc(), &mut recv, 8)?;
    assert!(rt; have(&got, &[7]) && recv.close() == Closing::Closed);
    Ok(())
}

#[test]
fn a_type_of_the_caller_names_an_open_ring(rt: HostRuntime) -> Result<(), Fail> {
    let (mut recv, mut end) = open_ring_named_by::<Note, NotesRing>(rt.alloc())?;
    assert!(rt; put(&rt, &mut end, 7).is_ok());
    let got = take(&rt, rt.alloc(), &mut recv, 8)?;
    assert!(rt; have(&got, &[7]));
    Ok(())
}
