//! Events between the reactors of a run.
ghost use Rattle.std.specs.Prelude.{◌≡◌, ◌<◌, [], length, IfOk};
ghost use Rattle.lw_event.specs.Desks.{IsStill};
ghost use Rattle.lw_event_tests.specs.Three.{AreOurs};

use crate::quiet::Quiet;
use lw_base::NoMemory;
use lw_event::{Event, EventDesk, event_rings, settle_events};
use lw_thread::Body;
use std::alloc::Global;
use std::sync::Wait;
use std::test::Fail;

// The desks of three reactors.
#[tactic(auto, using(crate::proofs::Ours::new_ours))]
fn three<B: Body>(alloc: Global) -> Result<Vec<EventDesk<B>>, NoMemory>
    ensures { IfOk result (λ v. AreOurs v.items) }
{
    event_rings::<B>(alloc, 3)
}

// Sends an order about a thread by a desk to another, and says whether it went.
#[tactic(auto, using(crate::proofs::Ours::ours_end, crate::proofs::Ours::ours_fits))]
fn sends<R: Wait>(
    rt: &R,
    desks: &mut Vec<EventDesk<Quiet>>,
    from: u32,
    to: u32,
    thread: u32,
) -> bool
    requires ours { AreOurs desks.old.items }
    requires from { from < 3 }
    requires to { to < 3 }
    ensures { AreOurs desks.new.items }
{
    desks[from as usize]
        .send(rt, to, Event::order(1, thread, to))
        .is_ok()
}

/// An order, as it was taken: its sender, its number, its thread.
type Seen = (u32, u64, u32);

// What an event tells.
fn seen_of(event: &Event<Quiet>) -> Seen {
    match event {
        Event::Order {
            sender,
            number,
            round: _,
            thread,
            to: _,
        } => (*sender, *number, *thread),
        Event::Arrive {
            sender,
            number,
            round: _,
            id,
            thread: _,
        } => (*sender, *number, *id),
    }
}

// Hands out all that a desk has taken.
#[tactic(auto, using(crate::proofs::Ours::still_none, crate::proofs::Ours::still_then))]
fn hand_out(desk: &mut EventDesk<Quiet>, seen: &mut Vec<Seen>) -> Result<(), NoMemory>
    ensures none { IfOk result (λ _. desk.new.batch ≡ []) }
    ensures still { IsStill desk.old desk.new }
{
    while let Some(event) = desk.next() {
        seen.push(seen_of(&event))?;
    }
    Ok(())
}

// One take by a desk: what it gives, after what was left of the one before.
fn takes<R: Wait>(
    rt: &R,
    alloc: Global,
    desks: &mut Vec<EventDesk<Quiet>>,
    by: u32,
) -> Result<Vec<Seen>, NoMemory>
    requires ours { AreOurs desks.old.items }
    requires by { by < 3 }
    ensures { AreOurs desks.new.items }
{
    let desk = &mut desks[by as usize];
    let mut seen = Vec::new(alloc);
    hand_out(desk, &mut seen)?;
    let _count = desk.take(rt);
    hand_out(desk, &mut seen)?;
    Ok(seen)
}

#[test]
fn events_come_in_the_order_in_which_they_were_sent(rt: HostRuntime) -> Result<(), Fail> {
    let mut desks = three::<Quiet>(rt.alloc())?;
    assert!(rt; sends(&rt, &mut desks, 0, 2, 10));
    assert!(rt; sends(&rt, &mut desks, 1, 2, 11));
    assert!(rt; sends(&rt, &mut desks, 0, 2, 12));
    assert!(rt; sends(&rt, &mut desks, 2, 2, 13));
    assert!(rt; sends(&rt, &mut desks, 0, 1, 14));
    let wanted = [(0, 0, 10), (1, 0, 11), (0, 1, 12), (2, 0, 13)];
    assert!(rt; takes(&rt, rt.alloc(), &mut desks, 2)?.as_slice() == wanted.as_slice());
    assert!(rt; takes(&rt, rt.alloc(), &mut desks, 2)?.is_empty());
    assert!(rt; takes(&rt, rt.alloc(), &mut desks, 0)?.is_empty());
    assert!(rt; takes(&rt, rt.alloc(), &mut desks, 1)?.as_slice() == [(0, 0, 14)].as_slice());
    Ok(())
}

// Sends so many orders by desk 0 to reactor 1, and says how many went.
fn sends_many<R: Wait>(rt: &R, desks: &mut Vec<EventDesk<Quiet>>, many: u32) -> u32
    requires { AreOurs desks.old.items }
    ensures { AreOurs desks.new.items }
{
    let mut sent: u32 = 0;
    for thread in 0..many {
        if sends(rt, desks, 0, 1, thread) {
            sent = sent.saturating_add(1);
        }
    }
    sent
}

#[test]
fn a_take_gives_eight_at_most(rt: HostRuntime) -> Result<(), Fail> {
    let mut desks = three::<Quiet>(rt.alloc())?;
    assert!(rt; sends_many(&rt, &mut desks, 10) == 10);
    assert!(rt; takes(&rt, rt.alloc(), &mut desks, 1)?.len() == 8);
    assert!(rt;
        takes(&rt, rt.alloc(), &mut desks, 1)?.as_slice() == [(0, 8, 8), (0, 9, 9)].as_slice()
    );
    Ok(())
}

// Takes by a desk, and leaves what was taken in it.
fn takes_one<R: Wait>(
    rt: &R,
    alloc: Global,
    desks: &mut Vec<EventDesk<Quiet>>,
    by: u32,
) -> Result<bool, NoMemory>
    requires ours { AreOurs desks.old.items }
    requires by { by < 3 }
    ensures { AreOurs desks.new.items }
{
    let desk = &mut desks[by as usize];
    let mut seen = Vec::new(alloc);
    hand_out(desk, &mut seen)?;
    let _count = desk.take(rt);
    Ok(desk.next().is_some())
}

// What is left of all rings.
fn settled<R: Wait>(
    rt: &R,
    alloc: Global,
    desks: Vec<EventDesk<Quiet>>,
) -> Result<Vec<Seen>, NoMemory>
    requires { AreOurs desks.items }
{
    let mut seen = Vec::new(alloc);
    for event in settle_events(rt, alloc, desks)?.iter() {
        seen.push(seen_of(event))?;
    }
    Ok(seen)
}

#[test]
fn what_was_not_handed_out_is_left(rt: HostRuntime) -> Result<(), Fail> {
    let mut desks = three::<Quiet>(rt.alloc())?;
    assert!(rt; sends_many(&rt, &mut desks, 3) == 3);
    assert!(rt; takes_one(&rt, rt.alloc(), &mut desks, 1)?);
    assert!(rt; sends(&rt, &mut desks, 2, 1, 20));
    assert!(rt; sends(&rt, &mut desks, 1, 0, 21));
    let wanted = [(1, 0, 21), (0, 1, 1), (0, 2, 2), (2, 0, 20)];
    assert!(rt; settled(&rt, rt.alloc(), desks)?.as_slice() == wanted.as_slice());
    Ok(())
}
