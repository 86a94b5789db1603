//! When a round is due.
use lw_sched::due;
use std::test::Fail;

const END: u64 = 18_446_744_073_709_551_615;

#[test]
fn a_round_is_due_a_whole_period_after_the_last(rt: HostRuntime) -> Result<(), Fail> {
    assert!(rt; !due(5, 10, 5) && !due(5, 10, 14));
    assert!(rt; due(5, 10, 15) && due(5, 10, 16));
    Ok(())
}

#[test]
fn readings_at_the_end_of_64_bits(rt: HostRuntime) -> Result<(), Fail> {
    assert!(rt; due(0, END, END) && !due(1, END, END));
    assert!(rt; due(END - 1, 1, END) && !due(END, 1, END));
    Ok(())
}
