//! The load of a thread.
ghost use Rattle.std.specs.Prelude.{◌≡◌, ◌≤◌};
ghost use Rattle.lw_base.specs.Plan.{load_of};

use lw_base::Tick;

/// The part of 100 in which a thread was busy, rounded down: 0 to 100, and 0 where it has no ticks at all.
pub fn load_of(busy: Tick, idle: Tick) -> u32
    ensures load { result ≡ load_of busy idle }
    ensures most { result ≤ 100 }
{
    // Neither the product nor the sum of two readings fits 64 bits.
    let ticks = busy as u128 + idle as u128;
    if ticks == 0 {
        return 0;
    }
    (busy as u128 * 100 / ticks) as u32
}
