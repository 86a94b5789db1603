//! Gives and releases of a latch.
ghost use Rattle.std.specs.Prelude.{◌≡◌, ◌+◌, ◌<◌, ◌≤◌, IfOk, All};
ghost use Rattle.lw_latch.specs.DeviceWord.{most_seats, most_gives};

use lw_base::NoMemory;
use lw_latch::{DeviceSeat, Give, device_latch};
use std::alloc::Global;
use std::thread;
use std::thread::Threads;

/// So many rounds of each of so many machine threads, over one latch.
pub fn run<R: Threads + Sync>(
    rt: &R,
    alloc: Global,
    rounds: u32,
    threads: u32,
) -> Result<(), NoMemory>
    requires { (1 ≤ threads) × (threads ≤ most_seats) }
{
    let mut seats = new_seats(alloc, threads)?;
    thread::for_each_mut(
        rt,
        seats.as_mut_slice(),
        threads as usize,
        &|_, seat| give_and_release(seat, rounds),
    );
    Ok(())
}

fn new_seats(alloc: Global, count: u32) -> Result<Vec<DeviceSeat>, NoMemory>
    requires { (1 ≤ count) × (count ≤ most_seats) }
    ensures { IfOk result (λ v. All (λ e. (e.view.channel ≡ 0) × (e.view.gives ≡ 0)) v.items) }
{
    device_latch(alloc, count)
}

fn give_and_release(seat: &mut DeviceSeat, rounds: u32)
    requires { (seat.old.view.channel ≡ 0) × (seat.old.view.gives ≡ 0) }
{
    for round in 0..rounds {
        let _ordinal = give_once(seat);
    }
}

/// Gets a channel and gives it back. Answers its ordinal, if the latch was open.
pub fn give_once(seat: &mut DeviceSeat) -> Option<u64>
    requires channel { seat.old.view.channel ≡ 0 }
    requires room { seat.old.view.gives < most_gives }
    ensures { (seat.new.view.channel ≡ 0) × (seat.new.view.gives ≡ seat.old.view.gives + 1) }
{
    match seat.give() {
        Give::Given { ordinal } => {
            seat.release();
            Some(ordinal)
        }
        Give::Shut => None,
    }
}
