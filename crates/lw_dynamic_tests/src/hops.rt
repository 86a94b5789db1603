//! Hops, each with its order.
use crate::changes::{fails, holds};
use crate::texts::{ONE_MOVE, QUIET, SIX_ORDERS};
use std::test::Fail;

#[test]
fn each_hop_has_its_order(rt: HostRuntime) -> Result<(), Fail> {
    let alloc = rt.alloc();
    let cases = [
        // To another reactor than ordered, in the hop or in the order.
        ("hop 1 0", "hop 1 2", 1, 18),
        ("order 1 0", "order 1 2", 1, 18),
        ("hop 2 0", "hop 2 2", 1, 23),
        ("order 1 0\n", "", 1, 18),
        ("order 2 0\n", "", 1, 23),
        // The order is another thread's, or of another round.
        ("thread 3 owner 0\n", "thread 3 owner 0\nhop 2 0\n", 1, 26),
        ("order 1 0", "order 2 0", 1, 18),
        ("hop 1 0", "hop 2 0", 1, 18),
        ("hop 3 1", "hop 4 1", 1, 19),
        ("round 1 105", "round 2 105", 1, 18),
        ("round 3 310", "round 4 310", 1, 19),
        // Two orders, of which neither is right as a whole.
        ("order 1 1", "order 1 0\norder 2 1", 1, 19),
    ];
    fails(&rt, alloc, SIX_ORDERS, &cases)?;
    fails(
        &rt,
        alloc,
        QUIET,
        &[("thread 1 client 0\n", "thread 1 client 0\nhop 1 0\n", 1, 15)],
    )?;
    // An order needs no hop.
    let unmoved = [("hop 1 0\n", ""), ("hop 3 1\n", ""), ("hop 2 0\n", "")];
    holds(&rt, alloc, SIX_ORDERS, &unmoved)?;
    holds(&rt, alloc, ONE_MOVE, &[("hop 1 0\n", "")])?;
    Ok(())
}

#[test]
fn hops_have_ascending_rounds(rt: HostRuntime) -> Result<(), Fail> {
    let alloc = rt.alloc();
    let cases = [
        ("hop 1 0\n", "hop 1 0\nhop 1 0\n", 1, 19),
        ("hop 3 1", "hop 1 0", 1, 19),
        ("hop 1 0\nhop 3 1", "hop 3 1\nhop 1 0", 1, 19),
        ("hop 1 0", "hop 0 0", 1, 18),
        ("did 0 0 waited", "hop 3 1\ndid 0 0 waited", 1, 20),
        // A thread's hops stand before its messages.
        ("ran 0 0 stop", "ran 0 0 stop\nhop 2 1", 0, 27),
    ];
    fails(&rt, alloc, SIX_ORDERS, &cases)?;
    let of_one = [
        ("hop 1 0\n", "hop 1 0\nhop 1 0\n", 1, 17),
        ("hop 1 0\n", "hop 1 0\nhop 2 0\n", 1, 17),
        ("thread 1 client 1", "thread 1 client 0", 1, 15),
        ("thread 2 owner 0", "thread 2 owner 1", 1, 19),
    ];
    fails(&rt, alloc, ONE_MOVE, &of_one)?;
    // With two orders a thread may have two hops.
    let more = [("thread 3 owner 0\n", "thread 3 owner 0\nhop 2 1\nhop 3 2\n")];
    holds(&rt, alloc, SIX_ORDERS, &more)?;
    Ok(())
}
