//! The plan where every thread may go to every reactor.
ghost use Rattle.std.specs.Prelude.{◌≡◌, ◌<◌, All};
ghost use Rattle.std.specs.Bool.{OnTrue};

use lw_base::NoMemory;
use lw_sched::{Limits, Order, Row, plan};
use std::alloc::Global;
use std::test::Fail;

/// The mask that names every reactor.
pub const EVERY: u32 = 65_535;

/// A row of a thread with this load.
pub fn row(thread: u32, reactor: u32, load: u32) -> Row
    ensures { result.reactor ≡ reactor }
{
    Row {
        thread,
        reactor,
        busy: load as u64,
        idle: 100 - load.min(100) as u64,
    }
}

// Whether each row is on a reactor that is there.
fn are_there(rows: &[Row], reactors: u32) -> bool
    ensures { OnTrue result (All (λ w. w.reactor < reactors) rows.now) }
{
    for row in rows {
        if row.reactor >= reactors {
            return false;
        }
    }
    true
}

/// The plan's orders, or none where the rows aren't those of a round.
pub fn orders(
    alloc: Global,
    limits: Limits,
    reactors: u32,
    rows: &[Row],
    masks: &[u32],
) -> Result<Option<Vec<Order>>, NoMemory> {
    if reactors == 0 || reactors > 16 || rows.len() > 127 || masks.len() != rows.len() {
        return Ok(None);
    }
    if !are_there(rows, reactors) {
        return Ok(None);
    }
    Ok(Some(plan(alloc, limits, reactors, rows, masks)?))
}

/// Whether these are the orders of these threads to these reactors.
pub fn are(orders: Option<Vec<Order>>, wanted: &[(u32, u32)]) -> bool {
    let Some(orders) = orders else {
        return false;
    };
    if orders.len() != wanted.len() {
        return false;
    }
    for place in 0..wanted.len() {
        if orders[place].thread != wanted[place].0 || orders[place].to != wanted[place].1 {
            return false;
        }
    }
    true
}

// The orders by the limits of every reactor, where every thread may go to every reactor.
fn free_orders(alloc: Global, reactors: u32, rows: &[Row]) -> Result<Option<Vec<Order>>, NoMemory> {
    let masks = vec![in alloc; EVERY; rows.len()]?;
    orders(alloc, Limits::standard(), reactors, rows, masks.as_slice())
}

#[test]
fn busy_reactors_give_threads_away_and_idle_threads_go_to_reactor_0(
    rt: HostRuntime,
) -> Result<(), Fail> {
    let rows = [
        row(0, 0, 10),
        row(1, 0, 50),
        row(2, 1, 60),
        row(3, 1, 40),
        row(4, 2, 19),
    ];
    let orders = free_orders(rt.alloc(), 3, rows.as_slice())?;
    assert!(rt; are(orders, [(1, 1), (2, 2), (3, 0), (4, 0)].as_slice()));
    Ok(())
}

#[test]
fn without_room_the_least_planned_is_chosen(rt: HostRuntime) -> Result<(), Fail> {
    let rows = [row(0, 0, 90), row(1, 0, 90), row(2, 0, 30)];
    let orders = free_orders(rt.alloc(), 2, rows.as_slice())?;
    assert!(rt; are(orders, [(0, 1), (2, 1)].as_slice()));
    Ok(())
}

#[test]
fn a_thread_is_idle_below_20(rt: HostRuntime) -> Result<(), Fail> {
    let idle = free_orders(rt.alloc(), 2, [row(0, 1, 19)].as_slice())?;
    assert!(rt; are(idle, [(0, 0)].as_slice()));
    let busy = free_orders(rt.alloc(), 2, [row(0, 1, 20)].as_slice())?;
    assert!(rt; are(busy, [].as_slice()));
    Ok(())
}

#[test]
fn a_reactor_has_room_up_to_80(rt: HostRuntime) -> Result<(), Fail> {
    let full = free_orders(rt.alloc(), 3, [row(0, 0, 40), row(1, 0, 40)].as_slice())?;
    assert!(rt; are(full, [(0, 1), (1, 1)].as_slice()));
    let over = free_orders(rt.alloc(), 3, [row(0, 0, 40), row(1, 0, 41)].as_slice())?;
    assert!(rt; are(over, [(0, 1), (1, 2)].as_slice()));
    Ok(())
}

#[test]
fn a_reactor_keeps_its_threads_up_to_95(rt: HostRuntime) -> Result<(), Fail> {
    let kept = free_orders(rt.alloc(), 2, [row(0, 1, 45), row(1, 1, 50)].as_slice())?;
    assert!(rt; are(kept, [].as_slice()));
    let given = free_orders(rt.alloc(), 2, [row(0, 1, 46), row(1, 1, 50)].as_slice())?;
    assert!(rt; are(given, [(1, 0)].as_slice()));
    Ok(())
}

// A thread that was busy and idle for as many ticks as there can be is half busy.
#[test]
fn ticks_at_the_end_of_64_bits(rt: HostRuntime) -> Result<(), Fail> {
    let half = Row {
        thread: 0,
        reactor: 1,
        busy: u64::MAX,
        idle: u64::MAX,
    };
    let kept = free_orders(rt.alloc(), 2, [half, row(1, 1, 45)].as_slice())?;
    assert!(rt; are(kept, [].as_slice()));
    let given = free_orders(rt.alloc(), 2, [half, row(1, 1, 46)].as_slice())?;
    assert!(rt; are(given, [(1, 0)].as_slice()));
    Ok(())
}

#[test]
fn no_rows_and_one_reactor_have_no_orders(rt: HostRuntime) -> Result<(), Fail> {
    let none = free_orders(rt.alloc(), 16, [].as_slice())?;
    assert!(rt; are(none, [].as_slice()));
    let one = free_orders(rt.alloc(), 1, [row(0, 0, 0), row(1, 0, 100)].as_slice())?;
    assert!(rt; are(one, [].as_slice()));
    Ok(())
}

// As many threads as a run can have, all half busy on reactor 0.
fn crowd(alloc: Global) -> Result<Vec<Row>, NoMemory> {
    let mut rows = Vec::new(alloc);
    for thread in 0..127 {
        rows.push(row(thread, 0, 50))?;
    }
    Ok(rows)
}

// They go to the reactors 1, .., 15, 0 in turn: first for their room, then for what is planned.
#[test]
fn the_greatest_round_spreads_over_16_reactors(rt: HostRuntime) -> Result<(), Fail> {
    let rows = crowd(rt.alloc())?;
    let orders = free_orders(rt.alloc(), 16, rows.as_slice())?;
    let mut count = 0_u32;
    if let Some(orders) = orders {
        for order in orders {
            assert!(rt; order.to == (order.thread % 16 + 1) % 16 && order.to != 0);
            count = count.saturating_add(1);
        }
    }
    assert!(rt; count == 120);
    Ok(())
}

#[test]
fn any_limits(rt: HostRuntime) -> Result<(), Fail> {
    let rows = [row(0, 1, 50), row(1, 1, 100)];
    let masks = [EVERY, EVERY];
    let all = Limits {
        load: 4_294_967_295,
        core: 0,
        busy: 0,
    };
    let idle = orders(rt.alloc(), all, 2, rows.as_slice(), masks.as_slice())?;
    assert!(rt; are(idle, [(0, 0), (1, 0)].as_slice()));
    let none = Limits {
        load: 0,
        core: 0,
        busy: 0,
    };
    let tight = orders(rt.alloc(), none, 2, rows.as_slice(), masks.as_slice())?;
    assert!(rt; are(tight, [(1, 0)].as_slice()));
    let wide = Limits {
        load: 0,
        core: 4_294_967_295,
        busy: 149,
    };
    let piled = orders(rt.alloc(), wide, 2, rows.as_slice(), masks.as_slice())?;
    assert!(rt; are(piled, [].as_slice()));
    Ok(())
}
