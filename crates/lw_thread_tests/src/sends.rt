//! What light threads send each other, and what comes back.
ghost use Rattle.std.specs.Prelude.{◌≡◌, ◌<◌, length, IfOk, IfSome, slice_index_or};
ghost use Rattle.lw_thread_tests.specs.Turns.{GoesOn};
ghost use Rattle.lw_thread_tests.specs.Rings.{AreOfRing};

use crate::making::{one_with, row};
use crate::players::{Note, Player};
use crate::plays::Plan;
use crate::polls::{are_requests, are_sent, ended, first_poll, works};
use lw_base::NoMemory;
use lw_ring::{Pair, RecvEnd, SendEnd, Settled, settle};
use lw_thread::{LightThread, Opened, Remains, Stop};
use std::alloc::Global;
use std::sync::Wait;
use std::test::Fail;

// Polls thread 0, which gets its poller, and then thread 1, and says whether both worked.
fn both_work<R: Wait>(
    rt: &R,
    one: &mut LightThread<Player>,
    other: &mut LightThread<Player>,
) -> Result<bool, Stop>
    requires going { GoesOn one.old × GoesOn other.old }
    requires ring { AreOfRing other.old.recv one.old.ends other.old.ends }
    ensures going { IfOk result (λ _. GoesOn one.new × GoesOn other.new) }
    ensures ring { IfOk result (λ _. AreOfRing other.new.recv one.new.ends other.new.ends) }
{
    let first = first_poll(rt, one, 0)?;
    let second = works(rt, other, 0)?;
    Ok(first.worked && second)
}

// Both threads end.
#[tactic(auto, using(crate::proofs::Rings::both_closed))]
fn both_end(
    one: LightThread<Player>,
    other: LightThread<Player>,
) -> Option<(Remains<Player>, Remains<Player>)>
    requires going { GoesOn one × GoesOn other }
    requires ring { AreOfRing other.recv one.ends other.ends }
    ensures { IfSome result (λ r. AreOfRing r.1.recv r.0.ends r.1.ends) }
{
    let one = ended(one)?;
    let other = ended(other)?;
    Some((one, other))
}

// What is left of a thread's ring, and its end to that of thread 1.
fn second_parts(remains: Remains<Player>) -> (RecvEnd<Note>, SendEnd<Note>)
    requires { 1 < length remains.ends }
    ensures recv { result.0 ≡ remains.recv }
    ensures end { (d : _) → result.1 ≡ slice_index_or remains.ends 1 d }
{
    let mut parts = remains.open();
    let end = parts.ends.swap_remove(1);
    (parts.recv, end)
}

// Settles the ring of thread 1.
fn settle_second<R: Wait>(
    rt: &R,
    alloc: Global,
    one: Remains<Player>,
    other: Remains<Player>,
) -> Result<Settled<Note>, NoMemory>
    requires { AreOfRing other.recv one.ends other.ends }
{
    let (_, first) = second_parts(one);
    let (recv, second) = second_parts(other);
    let ends = row(alloc, first, second)?;
    settle(rt, alloc, recv, ends)
}

#[test]
fn one_speaks_and_both_end(rt: HostRuntime) -> Result<(), Fail> {
    let (mut one, mut other) = one_with(rt.alloc(), Plan::Speak { count: 2 }, 1)?;
    assert!(rt; both_work(&rt, &mut one, &mut other)?);
    let Some((one, other)) = both_end(one, other) else {
        panic!(rt; "a thread did not end")
    };
    assert!(rt; one.number() == 0 && one.ran().is_empty() && one.trail().is_empty());
    assert!(rt; other.number() == 1 && are_requests(other.ran(), 2));
    let settled = settle_second(&rt, rt.alloc(), one, other)?;
    let wanted = [Pair { sent: 2, run: 2 }, Pair { sent: 0, run: 0 }];
    assert!(rt; settled.counts.as_slice() == wanted.as_slice() && settled.left.is_empty());
    Ok(())
}

// Polls thread 0, which gets its poller, twice once thread 1 has ended.
fn polls_alone<R: Wait>(
    rt: &R,
    one: LightThread<Player>,
    other: LightThread<Player>,
) -> Result<Option<Opened<Player>>, Stop>
    requires { GoesOn one × GoesOn other }
{
    let (mut one, mut other) = (one, other);
    other.ask_end();
    if ended(other).is_none() {
        return Ok(None);
    }
    let _polled = first_poll(rt, &mut one, 0)?;
    let _worked = works(rt, &mut one, 1)?;
    match ended(one) {
        Some(remains) => Ok(Some(remains.open())),
        None => Ok(None),
    }
}

// The first message and the last go to thread 0 itself, those between them come back, and each time the body sends thread 0 a
// note of value 100.
#[test]
fn what_comes_back_goes_to_the_body_before_the_next_send(rt: HostRuntime) -> Result<(), Fail> {
    let (one, other) = one_with(rt.alloc(), Plan::Mix, 0)?;
    let Some(parts) = polls_alone(&rt, one, other)? else {
        panic!(rt; "a thread did not end")
    };
    assert!(rt; parts.body.back.as_slice() == [8, 9].as_slice());
    assert!(rt; parts.body.heard.as_slice() == [7, 100, 100, 10].as_slice());
    assert!(rt; are_sent(&parts, &[4, 0]));
    Ok(())
}
