//! The time of a plan.
ghost use Rattle.std.specs.Prelude.{◌≡◌, ◌<◌, ◌≤◌, length, All};

use anyhow::Result;
use lw_base::NoMemory;
use lw_sched::{Limits, Row, plan};
use std::alloc::Global;
use std::cmp;
use std::time::{Clock, Instant};

/// How often the plans are made. The best run counts.
const RUNS: u32 = 5;

/// How many nanoseconds a plan of these rows takes, over so many plans.
pub fn nanos_a_plan<R: Clock>(
    rt: &R,
    alloc: Global,
    rows: &[Row],
    masks: &[u32],
    plans: u32,
) -> Result<u64>
    requires few { length rows.now ≤ 127 }
    requires rows { All (λ w. w.reactor < 16) rows.now }
    requires masks { length masks.now ≡ length rows.now }
{
    let mut best = u64::MAX;
    for _ in 0..RUNS {
        let start = Instant::now(rt)?;
        planned(alloc, rows, masks, plans)?;
        let spent = u64::try_from(start.elapsed(rt)?.as_nanos()).unwrap_or(u64::MAX);
        best = cmp::min(best, spent / u64::from(cmp::max(plans, 1)));
    }
    Ok(best)
}

/// How many orders so many plans of these rows have together.
pub fn planned(alloc: Global, rows: &[Row], masks: &[u32], plans: u32) -> Result<u64, NoMemory>
    requires few { length rows.now ≤ 127 }
    requires rows { All (λ w. w.reactor < 16) rows.now }
    requires masks { length masks.now ≡ length rows.now }
{
    let mut orders = 0_u64;
    for _ in 0..plans {
        let made = plan(alloc, Limits::standard(), 16, rows, masks)?;
        orders = orders.saturating_add(made.len() as u64);
    }
    Ok(orders)
}
