//! The plan where masks name the reactors that a thread may go to.
use crate::plans::{EVERY, are, orders, row};
use lw_base::NoMemory;
use lw_sched::{Limits, Order, Row};
use std::alloc::Global;
use std::test::Fail;

// The orders by the limits of every reactor.
fn masked(
    alloc: Global,
    reactors: u32,
    rows: &[Row],
    masks: &[u32],
) -> Result<Option<Vec<Order>>, NoMemory> {
    orders(alloc, Limits::standard(), reactors, rows, masks)
}

#[test]
fn each_thread_goes_where_its_mask_allows(rt: HostRuntime) -> Result<(), Fail> {
    let rows = [
        row(0, 0, 10),
        row(1, 0, 50),
        row(2, 1, 60),
        row(3, 1, 40),
        row(4, 2, 19),
    ];
    let orders = masked(rt.alloc(), 3, rows.as_slice(), [7, 5, 7, 3, 6].as_slice())?;
    assert!(rt; are(orders, [(1, 2), (3, 0), (4, 1)].as_slice()));
    Ok(())
}

#[test]
fn an_idle_thread_goes_to_the_least_that_it_may(rt: HostRuntime) -> Result<(), Fail> {
    let rows = [row(0, 0, 5), row(1, 3, 5)];
    let orders = masked(rt.alloc(), 4, rows.as_slice(), [12, 14].as_slice())?;
    assert!(rt; are(orders, [(0, 2), (1, 1)].as_slice()));
    Ok(())
}

#[test]
fn a_thread_leaves_a_reactor_that_its_mask_forbids(rt: HostRuntime) -> Result<(), Fail> {
    let orders = masked(rt.alloc(), 3, [row(0, 1, 50)].as_slice(), [5].as_slice())?;
    assert!(rt; are(orders, [(0, 2)].as_slice()));
    Ok(())
}

// It has no room, and what is planned elsewhere doesn't count.
#[test]
fn without_room_it_goes_to_the_least_planned_of_its_own(rt: HostRuntime) -> Result<(), Fail> {
    let rows = [row(0, 0, 90), row(1, 0, 90)];
    let orders = masked(rt.alloc(), 4, rows.as_slice(), [2, 3].as_slice())?;
    assert!(rt; are(orders, [(0, 1)].as_slice()));
    let again = masked(rt.alloc(), 4, rows.as_slice(), [2, 2].as_slice())?;
    assert!(rt; are(again, [(0, 1), (1, 1)].as_slice()));
    Ok(())
}

#[test]
fn a_mask_of_no_reactor_of_the_run_allows_all(rt: HostRuntime) -> Result<(), Fail> {
    let orders = masked(rt.alloc(), 2, [row(0, 0, 50)].as_slice(), [8].as_slice())?;
    assert!(rt; are(orders, [(0, 1)].as_slice()));
    let none = masked(rt.alloc(), 2, [row(0, 0, 50)].as_slice(), [0].as_slice())?;
    assert!(rt; are(none, [(0, 1)].as_slice()));
    let idle = masked(rt.alloc(), 2, [row(0, 1, 5)].as_slice(), [EVERY].as_slice())?;
    assert!(rt; are(idle, [(0, 0)].as_slice()));
    Ok(())
}
