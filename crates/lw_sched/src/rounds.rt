//! When a round is made.
ghost use Rattle.std.specs.Prelude.{◌≡◌, ◌-◌, ◌≤◌, nat_le};

use lw_base::Tick;

/// Whether a round is due at the reading `now`: at least `period` ticks past `last`, the time of the round before, or a
/// run's first reading where there was none. `last` is at most `now`.
pub fn due(last: Tick, period: Tick, now: Tick) -> bool
    requires { last ≤ now }
    ensures { result ≡ nat_le period (now - last) }
{
    now - last >= period
}
