//! Threads start at their number modulo the reactors, and the buffers come home.
use crate::changes::fails;
use crate::shared_texts::SHARED;
use crate::texts::{FOUR_OPS, WITHOUT_OPS};
use crate::visit_texts::HOLDERS;
use std::test::Fail;

#[test]
fn threads_start_at_home(rt: HostRuntime) -> Result<(), Fail> {
    let alloc = rt.alloc();
    let one_reactor = [
        ("14 thread 0 app 1", 1, 14),
        ("29 thread 2 owner 1", 1, 29),
        ("14 thread 0 app 1; 18 thread 1 client 1", 1, 14),
        // A static run has no round with the hop's order.
        ("+18 hop 1 0", 1, 19),
        ("18 thread 1 client 1; +18 hop 1 0", 1, 18),
        ("+14 hop 1 0; 29 thread 2 owner 1", 1, 15),
    ];
    fails(&rt, alloc, FOUR_OPS, &one_reactor)?;
    let two_reactors = [
        ("59 thread 3 owner 0", 1, 59),
        ("28 thread 1 client 0; 42 thread 2 client 1", 1, 28),
        ("3 reactors 1", 1, 28),
        // The homes of threads 0 and 1 are the same with more reactors.
        ("3 reactors 3", 1, 42),
        ("3 reactors 16", 1, 42),
    ];
    fails(&rt, alloc, SHARED, &two_reactors)?;
    let four_reactors = [
        ("73 thread 4 owner 4", 1, 73),
        ("33 thread 1 client 4294967295", 1, 33),
    ];
    fails(&rt, alloc, HOLDERS, &four_reactors)?;
    Ok(())
}

#[test]
fn buffers_come_home(rt: HostRuntime) -> Result<(), Fail> {
    let alloc = rt.alloc();
    let cases = [
        ("34 home 4 0", 9, 34),
        ("34 home 5 1", 9, 34),
        ("34 home 4294967295 1", 9, 34),
        ("5 pool 4 2", 9, 34),
    ];
    fails(&rt, alloc, FOUR_OPS, &cases)?;
    fails(&rt, alloc, SHARED, &[("68 home 1 2", 9, 68)])?;
    fails(&rt, alloc, WITHOUT_OPS, &[("19 home 0 0", 9, 19)])?;
    Ok(())
}
