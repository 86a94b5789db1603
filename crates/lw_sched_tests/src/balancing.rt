//! The rounds of a run, as a balancer makes them.
ghost use Rattle.std.specs.Prelude.{◌≡◌, ◌∷◌, [], None, length, IfOk};
ghost use Rattle.lw_place.specs.PlaceWord.{start_place, IsBelow};
ghost use Rattle.lw_rounds.specs.Measures.{unmeasured};
ghost use Rattle.lw_sched_tests.specs.Balancing.{MayGoOn};

use crate::plans::EVERY;
use lw_base::{NoMemory, Order, Round, Row, Tick};
use lw_load::{Figures, LoadPass, LoadReader, loads};
use lw_place::{DeskSeat, Start, ThreadSeat, places};
use lw_rounds::{Balancer, MOST_ROUNDS};
use std::alloc::Global;
use std::sync::Wait;
use std::test::Fail;

// The passes of two threads, and the reader.
fn two(alloc: Global) -> Result<(LoadPass, LoadPass, LoadReader), NoMemory>
    ensures first { IfOk result (λ r. (r.0.thread ≡ 0) × (r.0.busy ≡ 0) × (r.0.idle ≡ 0)) }
    ensures second { IfOk result (λ r. (r.1.thread ≡ 1) × (r.1.busy ≡ 0) × (r.1.idle ≡ 0)) }
    ensures reader { IfOk result (λ r. length r.2 ≡ 2) }
{
    let (mut passes, reader) = loads(alloc, 2)?;
    let second = passes.remove(1);
    let first = passes.remove(0);
    Ok((first, second, reader))
}

// A balancer of the two threads of a reader over two reactors, with these masks, and a round each 10 ticks.
fn of_two(alloc: Global, reader: LoadReader, first: u32, second: u32) -> Result<Balancer, NoMemory>
    requires { length reader ≡ 2 }
    ensures { IfOk result (λ b. b ≡ record {
      reactors = 2;
      masks = first ∷ second ∷ [];
      period = 10;
      meter = unmeasured reader;
      first = None;
      rounds = [];
    }) }
{
    let mut masks = Vec::new(alloc);
    masks.push(first)?;
    masks.push(second)?;
    Balancer::new(alloc, reader, 2, masks, 10)
}

// The seats of thread 0, which is in the list of reactor 0, and of thread 1, which starts so, and a desk of theirs.
fn seats(alloc: Global, start: Start) -> Result<(ThreadSeat, ThreadSeat, DeskSeat), NoMemory>
    requires { IsBelow 2 (start_place start) }
    ensures first { IfOk result (λ r. r.0 ≡ record { places = r.2.places; thread = 0; place = start_place (Start.List 0) }) }
    ensures second { IfOk result (λ r. r.1 ≡ record { places = r.2.places; thread = 1; place = start_place start }) }
    ensures counts { IfOk result (λ r. (r.2.places.threads ≡ 2) × (r.2.places.reactors ≡ 2)) }
{
    let starts = [Start::List(0), start];
    let (mut threads, mut desks) = places(alloc, starts.as_slice(), 2)?;
    let desk = desks.pop().unwrap();
    let second = threads.pop().unwrap();
    let first = threads.pop().unwrap();
    Ok((first, second, desk))
}

// Makes a round at this reading if one is due, and says whether it was.
fn go_on<R: Wait>(
    rt: &R,
    alloc: Global,
    balancer: &mut Balancer,
    now: Tick,
    desk: &mut DeskSeat,
) -> Result<bool, NoMemory>
    requires { MayGoOn now balancer.old desk.old }
    ensures after { IfOk result (λ _. MayGoOn now balancer.new desk.new) }
    ensures masks { IfOk result (λ _. balancer.new.masks ≡ balancer.old.masks) }
{
    if !balancer.is_due(now) {
        return Ok(false);
    }
    balancer.balance(rt, alloc, now, desk)?;
    Ok(true)
}

// Whether these are the rows of these threads: each with its reactor, and its busy and idle ticks.
fn are_rows(rows: &[Row], wanted: &[(u32, u32, u64, u64)]) -> bool {
    if rows.len() != wanted.len() {
        return false;
    }
    for place in 0..wanted.len() {
        let row = rows[place];
        let found = (row.thread, row.reactor, row.busy, row.idle);
        if found != wanted[place] {
            return false;
        }
    }
    true
}

// Whether these are the orders of these threads to these reactors.
fn are_orders(orders: &[Order], wanted: &[(u32, u32)]) -> bool {
    if orders.len() != wanted.len() {
        return false;
    }
    for place in 0..wanted.len() {
        if (orders[place].thread, orders[place].to) != wanted[place] {
            return false;
        }
    }
    true
}

#[test]
fn a_round_is_due_a_period_after_the_first_reading(rt: HostRuntime) -> Result<(), Fail> {
    let (_, _, reader) = two(rt.alloc())?;
    let mut balancer = of_two(rt.alloc(), reader, EVERY, EVERY)?;
    assert!(rt; !balancer.is_due(100));
    assert!(rt; !balancer.is_due(109));
    assert!(rt; balancer.is_due(110));
    assert!(rt; balancer.rounds().is_empty() && MOST_ROUNDS == 10_000);
    Ok(())
}

#[test]
fn rows_have_the_ticks_since_the_round_before(rt: HostRuntime) -> Result<(), Fail> {
    let (mut pass, _, reader) = two(rt.alloc())?;
    let mut balancer = of_two(rt.alloc(), reader, EVERY, EVERY)?;
    let (_, _, mut desk) = seats(rt.alloc(), Start::List(1))?;
    assert!(rt; !balancer.is_due(100));
    pass.publish(&rt, 3, 4);
    assert!(rt; go_on(&rt, rt.alloc(), &mut balancer, 110, &mut desk)?);
    pass.publish(&rt, 5, 10);
    assert!(rt; !go_on(&rt, rt.alloc(), &mut balancer, 119, &mut desk)?);
    assert!(rt; go_on(&rt, rt.alloc(), &mut balancer, 125, &mut desk)?);
    let rounds = balancer.into_rounds();
    assert!(rt; rounds.len() == 2);
    assert!(rt; rounds[0].number == 1 && rounds[0].time == 110);
    assert!(rt;
        are_rows(
            rounds[0].rows.as_slice(),
            [(0, 0, 3, 4), (1, 1, 0, 0)].as_slice()
        )
    );
    assert!(rt; rounds[1].number == 2 && rounds[1].time == 125);
    assert!(rt;
        are_rows(
            rounds[1].rows.as_slice(),
            [(0, 0, 2, 6), (1, 1, 0, 0)].as_slice()
        )
    );
    Ok(())
}

// The rows of the last round.
fn last_are(balancer: &Balancer, wanted: &[(u32, u32, u64, u64)]) -> bool {
    match balancer.rounds().last() {
        Some(round) => are_rows(round.rows.as_slice(), wanted),
        None => false,
    }
}

// What is published is less then than what was told before: there are no ticks, and none is counted twice.
#[test]
fn told_sums_count_for_one_round(rt: HostRuntime) -> Result<(), Fail> {
    let (mut pass, _, reader) = two(rt.alloc())?;
    let mut balancer = of_two(rt.alloc(), reader, EVERY, EVERY)?;
    let (_, _, mut desk) = seats(rt.alloc(), Start::List(1))?;
    pass.publish(&rt, 3, 4);
    balancer.tell(0, Figures { busy: 5, idle: 4 });
    assert!(rt; !balancer.is_due(0));
    assert!(rt; go_on(&rt, rt.alloc(), &mut balancer, 10, &mut desk)?);
    assert!(rt; last_are(&balancer, [(0, 0, 5, 4), (1, 1, 0, 0)].as_slice()));
    assert!(rt; go_on(&rt, rt.alloc(), &mut balancer, 20, &mut desk)?);
    assert!(rt; last_are(&balancer, [(0, 0, 0, 0), (1, 1, 0, 0)].as_slice()));
    pass.publish(&rt, 9, 4);
    assert!(rt; go_on(&rt, rt.alloc(), &mut balancer, 30, &mut desk)?);
    assert!(rt; last_are(&balancer, [(0, 0, 6, 0), (1, 1, 0, 0)].as_slice()));
    Ok(())
}

#[test]
fn threads_in_no_list_have_no_row(rt: HostRuntime) -> Result<(), Fail> {
    let (_, _, reader) = two(rt.alloc())?;
    let mut balancer = of_two(rt.alloc(), reader, EVERY, EVERY)?;
    let (mut first, mut second, mut desk) = seats(rt.alloc(), Start::Held(1))?;
    assert!(rt; !balancer.is_due(0));
    assert!(rt; go_on(&rt, rt.alloc(), &mut balancer, 10, &mut desk)?);
    assert!(rt; last_are(&balancer, [(0, 0, 0, 0)].as_slice()));
    first.leave_for(1);
    second.start();
    assert!(rt; go_on(&rt, rt.alloc(), &mut balancer, 20, &mut desk)?);
    assert!(rt; last_are(&balancer, [(1, 1, 0, 0)].as_slice()));
    second.end();
    assert!(rt; go_on(&rt, rt.alloc(), &mut balancer, 30, &mut desk)?);
    assert!(rt; last_are(&balancer, [].as_slice()));
    Ok(())
}

#[test]
fn orders_go_by_the_masks(rt: HostRuntime) -> Result<(), Fail> {
    let (_, _, reader) = two(rt.alloc())?;
    let mut balancer = of_two(rt.alloc(), reader, 2, 1)?;
    let (_, _, mut desk) = seats(rt.alloc(), Start::List(1))?;
    assert!(rt; !balancer.is_due(0));
    assert!(rt; go_on(&rt, rt.alloc(), &mut balancer, 10, &mut desk)?);
    assert!(rt; balancer.stood(0) == 0 && balancer.stood(1) == 1);
    let rounds = balancer.into_rounds();
    assert!(rt; rounds.len() == 1);
    assert!(rt; are_orders(rounds[0].orders.as_slice(), [(0, 1), (1, 0)].as_slice()));
    Ok(())
}
