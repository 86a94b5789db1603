//! Reactors that sleep and are woken.
ghost use Rattle.std.specs.Prelude.{◌≡◌, ◌<◌, length, IfOk, IfSome};

use lw_base::NoMemory;
use lw_event::{Sleeper, sleepers};
use std::alloc::Global;
use std::sync::Wait;
use std::test::Fail;
use std::thread;

// The sleepers of two reactors.
fn two(alloc: Global) -> Result<(Sleeper, Sleeper), NoMemory>
    ensures first { IfOk result (λ r. length r.0.wakers ≡ 2) }
    ensures second { IfOk result (λ r. length r.1.wakers ≡ 2) }
{
    let mut both = sleepers(alloc, 2)?;
    let second = both.remove(1);
    let first = both.remove(0);
    Ok((first, second))
}

#[test]
fn a_wake_before_a_sleep_ends_it(rt: HostRuntime) -> Result<(), Fail> {
    let (mut first, mut second) = two(rt.alloc())?;
    first.wake(0);
    first.wake(0);
    first.sleep(&rt);
    second.wake(0);
    first.wake(1);
    first.sleep(&rt);
    second.sleep(&rt);
    Ok(())
}

#[test]
fn each_is_woken(rt: HostRuntime) -> Result<(), Fail> {
    let (mut first, mut second) = two(rt.alloc())?;
    second.wake_all();
    first.sleep(&rt);
    second.sleep(&rt);
    Ok(())
}

// Sleeps, and wakes the other, so often.
fn answer_often<R: Wait>(rt: &R, mut own: Sleeper, other: u32) -> u32
    requires { (length own.wakers ≡ 2) × (other < 2) }
{
    let mut slept: u32 = 0;
    for _ in 0..200 {
        own.sleep(rt);
        own.wake(other);
        slept = slept.saturating_add(1);
    }
    slept
}

// Wakes the other, and sleeps, so often.
fn ask_often<R: Wait>(rt: &R, mut own: Sleeper, other: u32) -> u32
    requires { (length own.wakers ≡ 2) × (other < 2) }
{
    let mut slept: u32 = 0;
    for _ in 0..200 {
        own.wake(other);
        own.sleep(rt);
        slept = slept.saturating_add(1);
    }
    slept
}

#[test]
fn two_machine_threads_wake_each_other(rt: HostRuntime) -> Result<(), Fail> {
    let (first, second) = two(rt.alloc())?;
    let counts = thread::join(
        &rt,
        || answer_often(&rt, first, 1),
        || ask_often(&rt, second, 0),
    );
    assert!(rt; counts == (200, 200));
    Ok(())
}
