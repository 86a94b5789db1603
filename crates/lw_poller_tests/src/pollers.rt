//! The pollers of a light thread.
ghost use Rattle.std.specs.Prelude.{◌≤◌};

use lw_base::{NoMemory, Tick};
use lw_poller::{PollerId, PollerRefusal, PollerSet};
use std::alloc::{AllocError, Global};
use std::test::Fail;

// Adds an active poller, and says whether it got this number.
fn adds_active(set: &mut PollerSet, number: u32) -> bool {
    set.add_active() == Ok(PollerId(number))
}

// Adds a timed poller at time 0, and says whether it got this number.
fn adds_timed(set: &mut PollerSet, period: Tick, number: u32) -> bool
    requires { 1 ≤ period }
{
    set.add_timed(0, period) == Ok(PollerId(number))
}

// Whether the poll gives these active pollers from here on, and then none.
fn gives_active(set: &mut PollerSet, wanted: &[u32]) -> bool {
    for number in wanted {
        if set.next_active() != Some(PollerId(*number)) {
            return false;
        }
    }
    set.next_active().is_none()
}

// Whether the poll gives these timed pollers from here on, and then none.
fn gives_timed(set: &mut PollerSet, wanted: &[u32]) -> bool {
    for number in wanted {
        if set.next_timed() != Some(PollerId(*number)) {
            return false;
        }
    }
    set.next_timed().is_none()
}

// Whether a poll that begins at `now` gives these timed pollers, and no others.
fn polls(set: &mut PollerSet, now: Tick, wanted: &[u32]) -> bool {
    set.begin(now);
    gives_timed(set, wanted)
}

// A set with so many active pollers.
fn active(alloc: Global, many: u32) -> Result<PollerSet, NoMemory> {
    let mut set = PollerSet::new(alloc)?;
    for _ in 0..many {
        if set.add_active().is_err() {
            return Err(AllocError);
        }
    }
    Ok(set)
}

#[test]
fn timed_pollers_come_by_due_time_and_then_in_the_order_of_setting(
    rt: HostRuntime,
) -> Result<(), Fail> {
    let mut set = PollerSet::new(rt.alloc())?;
    assert!(rt; set.is_empty());
    assert!(rt;
        adds_timed(&mut set, 5, 0) && adds_timed(&mut set, 5, 1) && adds_timed(&mut set, 3, 2)
    );
    assert!(rt; !set.is_empty() && gives_timed(&mut set, &[]));
    assert!(rt; polls(&mut set, 5, &[2, 0, 1]));
    assert!(rt; polls(&mut set, 7, &[]) && polls(&mut set, 8, &[2]));
    assert!(rt; polls(&mut set, 9, &[]) && polls(&mut set, 10, &[0, 1]));
    Ok(())
}

#[test]
fn numbers_are_the_least_that_are_free(rt: HostRuntime) -> Result<(), Fail> {
    let mut set = active(rt.alloc(), 63)?;
    assert!(rt; adds_timed(&mut set, 1, 63));
    assert!(rt; set.add_active() == Err(PollerRefusal::Full));
    assert!(rt; set.add_timed(0, 1) == Err(PollerRefusal::Full));
    assert!(rt; set.remove(PollerId(40)) == Ok(()) && set.remove(PollerId(17)) == Ok(()));
    assert!(rt; set.remove(PollerId(17)) == Err(PollerRefusal::Unknown));
    assert!(rt; set.pause(PollerId(64)) == Err(PollerRefusal::Unknown));
    assert!(rt; set.resume(PollerId(40), 0) == Err(PollerRefusal::Unknown));
    assert!(rt; adds_active(&mut set, 17) && adds_timed(&mut set, 1, 40));
    assert!(rt; set.add_active() == Err(PollerRefusal::Full));
    Ok(())
}

#[test]
fn active_pollers_come_in_order_of_registration(rt: HostRuntime) -> Result<(), Fail> {
    let mut set = active(rt.alloc(), 3)?;
    assert!(rt; gives_active(&mut set, &[]));
    assert!(rt; set.remove(PollerId(0)) == Ok(()) && adds_active(&mut set, 0));
    set.begin(1);
    assert!(rt; gives_active(&mut set, &[1, 2, 0]));
    set.begin(1);
    assert!(rt; gives_active(&mut set, &[1, 2, 0]) && gives_active(&mut set, &[]));
    Ok(())
}

#[test]
fn a_tick_adds_removes_and_pauses(rt: HostRuntime) -> Result<(), Fail> {
    let mut set = active(rt.alloc(), 4)?;
    set.begin(0);
    assert!(rt; set.next_active() == Some(PollerId(0)));
    assert!(rt; adds_active(&mut set, 4) && set.pause(PollerId(1)) == Ok(()));
    assert!(rt; set.remove(PollerId(2)) == Ok(()) && set.remove(PollerId(0)) == Ok(()));
    assert!(rt; gives_active(&mut set, &[3]));
    assert!(rt; set.resume(PollerId(1), 0) == Ok(()) && gives_active(&mut set, &[]));
    set.begin(0);
    assert!(rt; gives_active(&mut set, &[1, 3, 4]));
    Ok(())
}

#[test]
fn a_timed_poller_that_is_added_or_paused_in_a_poll_is_not_called_in_it(
    rt: HostRuntime,
) -> Result<(), Fail> {
    let mut set = PollerSet::new(rt.alloc())?;
    assert!(rt;
        adds_timed(&mut set, 1, 0) && adds_timed(&mut set, 2, 1) && adds_timed(&mut set, 3, 2)
    );
    set.begin(100);
    assert!(rt; set.next_timed() == Some(PollerId(0)));
    assert!(rt; adds_timed(&mut set, 1, 3) && set.pause(PollerId(1)) == Ok(()));
    assert!(rt; set.remove(PollerId(2)) == Ok(()) && gives_timed(&mut set, &[]));
    assert!(rt; set.resume(PollerId(1), 150) == Ok(()));
    assert!(rt; polls(&mut set, 151, &[3, 0]) && polls(&mut set, 151, &[]));
    assert!(rt; polls(&mut set, 152, &[1, 3, 0]));
    Ok(())
}

#[test]
fn equal_due_times_come_in_the_order_of_setting_and_not_of_numbers(
    rt: HostRuntime,
) -> Result<(), Fail> {
    let mut set = PollerSet::new(rt.alloc())?;
    assert!(rt; adds_timed(&mut set, 3, 0) && adds_timed(&mut set, 6, 1));
    assert!(rt; polls(&mut set, 3, &[0]));
    assert!(rt; polls(&mut set, 6, &[1, 0]));
    Ok(())
}

#[test]
fn pollers_pause_resume_and_remove_themselves_in_their_own_tick(
    rt: HostRuntime,
) -> Result<(), Fail> {
    let mut set = active(rt.alloc(), 2)?;
    assert!(rt; adds_timed(&mut set, 1, 2) && adds_timed(&mut set, 1, 3));
    set.begin(1);
    assert!(rt; set.next_active() == Some(PollerId(0)) && set.pause(PollerId(0)) == Ok(()));
    assert!(rt; set.next_active() == Some(PollerId(1)) && set.remove(PollerId(1)) == Ok(()));
    assert!(rt; adds_active(&mut set, 1) && gives_active(&mut set, &[]));
    assert!(rt; set.next_timed() == Some(PollerId(2)) && set.pause(PollerId(2)) == Ok(()));
    assert!(rt; set.resume(PollerId(2), 0) == Ok(()));
    assert!(rt; set.next_timed() == Some(PollerId(3)) && set.remove(PollerId(3)) == Ok(()));
    assert!(rt; adds_timed(&mut set, 1, 3) && gives_timed(&mut set, &[]));
    set.begin(1);
    assert!(rt; gives_active(&mut set, &[1]) && gives_timed(&mut set, &[2, 3]));
    Ok(())
}

#[test]
fn due_times_stop_at_the_greatest_tick(rt: HostRuntime) -> Result<(), Fail> {
    let mut set = PollerSet::new(rt.alloc())?;
    assert!(rt; set.add_timed(u64::MAX - 2, 5) == Ok(PollerId(0)));
    assert!(rt; set.add_timed(u64::MAX - 2, 1) == Ok(PollerId(1)));
    assert!(rt; polls(&mut set, u64::MAX - 2, &[]));
    assert!(rt; polls(&mut set, u64::MAX - 1, &[1]));
    assert!(rt; polls(&mut set, u64::MAX, &[0, 1]) && polls(&mut set, u64::MAX, &[0, 1]));
    let mut late = PollerSet::new(rt.alloc())?;
    assert!(rt; late.add_timed(u64::MAX, 7) == Ok(PollerId(0)));
    assert!(rt; polls(&mut late, u64::MAX, &[0]));
    Ok(())
}

// The second one that is resumed is due only after the poll began.
#[test]
fn a_paused_poller_that_is_resumed_before_its_turn_is_called(rt: HostRuntime) -> Result<(), Fail> {
    let mut set = active(rt.alloc(), 3)?;
    set.begin(0);
    assert!(rt; set.next_active() == Some(PollerId(0)));
    assert!(rt; set.pause(PollerId(1)) == Ok(()) && set.resume(PollerId(1), 0) == Ok(()));
    assert!(rt; gives_active(&mut set, &[1, 2]));
    let mut timed = PollerSet::new(rt.alloc())?;
    assert!(rt;
        adds_timed(&mut timed, 1, 0) && adds_timed(&mut timed, 2, 1) && adds_timed(&mut timed, 3, 2)
    );
    timed.begin(100);
    assert!(rt; timed.next_timed() == Some(PollerId(0)));
    assert!(rt; timed.pause(PollerId(1)) == Ok(()) && timed.resume(PollerId(1), 98) == Ok(()));
    assert!(rt; timed.pause(PollerId(2)) == Ok(()) && timed.resume(PollerId(2), 98) == Ok(()));
    assert!(rt; gives_timed(&mut timed, &[1]));
    assert!(rt; polls(&mut timed, 101, &[0, 2]));
    Ok(())
}
