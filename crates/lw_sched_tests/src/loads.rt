//! The load of a thread.
use lw_sched::load_of;
use std::test::Fail;

const END: u64 = 18_446_744_073_709_551_615;

#[test]
fn a_load_is_rounded_down(rt: HostRuntime) -> Result<(), Fail> {
    assert!(rt; load_of(1, 2) == 33 && load_of(2, 1) == 66);
    assert!(rt; load_of(199, 801) == 19 && load_of(200, 800) == 20);
    assert!(rt; load_of(7, 0) == 100 && load_of(0, 7) == 0);
    Ok(())
}

#[test]
fn a_thread_without_ticks_has_no_load(rt: HostRuntime) -> Result<(), Fail> {
    assert!(rt; load_of(0, 0) == 0);
    Ok(())
}

// Neither the sum of the ticks nor a hundred times the busy ones fits 64 bits.
#[test]
fn ticks_at_the_end_of_64_bits(rt: HostRuntime) -> Result<(), Fail> {
    assert!(rt; load_of(END, 0) == 100 && load_of(0, END) == 0);
    assert!(rt; load_of(END, END) == 50);
    assert!(rt; load_of(END - 1, END) == 49 && load_of(END, END - 1) == 50);
    assert!(rt; load_of(END, 1) == 99 && load_of(1, END) == 0);
    Ok(())
}
