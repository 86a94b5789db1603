//! The rows of a round, and whether its orders are the plan of them.
ghost use Rattle.std.specs.Prelude.{◌≡◌, ◌+◌, ◌<◌, ◌^◌, [], List, None, Some, IfOk, length, slice_get};
ghost use Rattle.lw_base.specs.Limits.{standard};
ghost use Rattle.lw_base.specs.Plan.{free_plan};
ghost use Rattle.lw_base.specs.declared.moves.Row.{Row};
ghost use Rattle.lw_model.specs.Rounds.{row_fits};
ghost use Rattle.lw_model.specs.Same.{both, is_same_order};
ghost use Rattle.lw_judge_threads.specs.Firsts.{at_line, first_unfit};
ghost use Rattle.lw_judge_rounds.specs.Differences.{first_difference};
ghost use Rattle.lw_judge_rounds.specs.RoundsAt.{AllowAll, least_thread};

use lw_base::{Limits, NoMemory, Order, Row};
use lw_judge_threads::at_line;
use lw_model::{Record, Round};
use lw_sched::plan;
use std::alloc::Global;

/// The mask of a thread that may stand on each of the reactors: scripts have no others.
pub const EVERY_REACTOR: u32 = 65_535;

/// The place of the first row whose thread or reactor there isn't, or whose thread isn't above that of the row before.
pub fn unfit_row(of: &Record, rows: &[Row]) -> Option<usize>
    ensures { result ≡ first_unfit (row_fits of.now) 0 [] rows.now }
{
    let mut least = 0;
    for (place, row) in rows.iter().enumerate() {
        if !row_fits(of, least, row) {
            return Some(place);
        }
        least = row.thread as u64 + 1;
    }
    None
}

// Whether a row's thread and reactor are there, and the thread is at least this.
fn row_fits(of: &Record, least: u64, row: &Row) -> bool
    ensures { (past : List Row) → least ≡ least_thread past → result ≡ row_fits of.now past row.now }
{
    (row.thread as usize) < of.threads.len()
        && row.reactor < of.reactors
        && row.thread as u64 >= least
}

/// The line of the first of a round's orders that isn't the one of its place in the plan, or of the place where one
/// lacks. The round's rows fit, and `first` is the line of the place of its first order.
pub fn unplanned_line(
    alloc: Global,
    of: &Record,
    round: &Round,
    masks: &[u32],
    first: u64,
) -> Result<Option<u64>, NoMemory>
    requires rows { None ≡ first_unfit (row_fits of.now) 0 [] round.now.rows }
    requires masks { AllowAll of.now masks.now }
    requires few { first + length round.now.orders < 2 ^ 64 }
    ensures { IfOk result (λ line. line ≡ at_line first
        (first_difference 0 (free_plan standard of.now.reactors round.now.rows) round.now.orders)) }
{
    let rows = round.rows.as_slice();
    let plan = plan(
        alloc,
        Limits::standard(),
        of.reactors,
        rows,
        &masks[..rows.len()],
    )?;
    let place = first_difference(plan.as_slice(), round.orders.as_slice());
    Ok(at_line(first, place))
}

// The first place at which two lists of orders aren't the same.
fn first_difference(plan: &[Order], orders: &[Order]) -> Option<usize>
    ensures { result ≡ first_difference 0 plan.now orders.now }
{
    for (place, order) in orders.iter().enumerate() {
        if !is_planned(plan, place, order) {
            return Some(place);
        }
    }
    (orders.len() < plan.len()).then_some(orders.len())
}

// Whether an order is the one of its place in the plan.
fn is_planned(plan: &[Order], place: usize, order: &Order) -> bool
    ensures { result ≡ both is_same_order (slice_get plan.now place) (Some order.now) }
{
    match plan.get(place) {
        Some(planned) => planned.thread == order.thread && planned.to == order.to,
        None => false,
    }
}
