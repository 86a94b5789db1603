//! The orders of a round, which are the plan of its rows.
use crate::changes::{fails, holds};
use crate::texts::{ONE_MOVE, QUIET, SIX_ORDERS};
use std::test::Fail;

#[test]
fn orders_are_the_planned_ones(rt: HostRuntime) -> Result<(), Fail> {
    let alloc = rt.alloc();
    let cases = [
        // Another one, one to another reactor, and one to no reactor.
        ("order 0 1", "order 2 1", 8, 34),
        ("order 0 1", "order 0 2", 8, 34),
        ("order 3 1", "order 3 0", 8, 42),
        ("order 3 1", "order 3 4294967295", 8, 42),
        ("order 3 1", "order 4 1", 8, 42),
        // A missing one, before another, before a round and before the end.
        ("order 0 1\n", "", 8, 34),
        ("order 3 1\n", "", 8, 42),
        ("order 3 2\n", "", 8, 48),
        // One too many.
        ("order 3 1\n", "order 3 1\norder 3 1\n", 8, 43),
        ("order 0 1\n", "order 0 1\norder 0 1\n", 8, 35),
        ("order 1 0\n", "order 1 0\norder 2 2\n", 8, 36),
        ("order 0 1\norder 1 0", "order 1 0\norder 0 1", 8, 34),
        ("order 2 0\norder 3 1", "order 3 1\norder 2 0", 8, 41),
    ];
    fails(&rt, alloc, SIX_ORDERS, &cases)?;
    let of_none = [
        ("home 1 1", "order 2 0\nhome 1 1", 8, 27),
        ("round 2 17\n", "round 2 17\norder 0 0\n", 8, 25),
    ];
    fails(&rt, alloc, QUIET, &of_none)?;
    Ok(())
}

#[test]
fn loads_decide_the_orders(rt: HostRuntime) -> Result<(), Fail> {
    let alloc = rt.alloc();
    let cases = [
        // Thread 2 goes to reactor 1, on which 30 are planned, to reactor 2, or as an idle one to reactor 0.
        ("row 2 2 50 50", "row 2 0 50 50", 8, 36),
        ("row 2 2 50 50", "row 2 0 51 49", 8, 36),
        ("row 2 2 50 50", "row 2 2 19 81", 8, 36),
        ("row 2 2 50 50", "row 2 2 199 801", 8, 36),
        ("row 2 2 50 50", "row 2 2 0 0", 8, 36),
        // An idle thread on reactor 0, one that goes there, and one that is just not idle.
        ("row 1 1 0 100", "row 1 0 0 100", 8, 35),
        ("row 0 0 30 70", "row 0 0 19 81", 8, 34),
        ("row 2 2 19 81", "row 2 2 20 80", 8, 41),
        // With 50 on reactor 1, 30 more still go there, and 31 not.
        ("row 3 0 31 69", "row 3 0 30 70", 8, 48),
        ("row 3 0 31 69\n", "", 8, 47),
    ];
    fails(&rt, alloc, SIX_ORDERS, &cases)?;
    let same_orders = [
        ("row 2 2 50 50", "row 2 2 20 80"),
        ("row 2 2 50 50", "row 2 1 50 50"),
        ("row 2 2 50 50", "row 2 2 96 4"),
        ("row 3 0 80 20", "row 3 0 81 19"),
        ("row 3 0 31 69", "row 3 0 80 20"),
    ];
    holds(&rt, alloc, SIX_ORDERS, &same_orders)?;
    let busy = [
        // 20 parts of 100 keep the thread where it is.
        ("row 1 1 0 0", "row 1 1 20 80", 8, 27),
        (
            "row 1 1 0 0",
            "row 1 1 18446744073709551615 18446744073709551615",
            8,
            27,
        ),
        ("row 2 0 0 0", "row 2 1 0 0", 8, 28),
    ];
    fails(&rt, alloc, ONE_MOVE, &busy)?;
    Ok(())
}
