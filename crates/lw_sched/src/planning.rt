//! The plan of a round.
ghost use Rattle.std.specs.Prelude.{◌≡◌, ◌<◌, ◌≤◌, length, slice_index, All, IfOk};
ghost use Rattle.lw_base.specs.Plan.{core_load, choice, plan, stays};
ghost use Rattle.lw_sched.specs.Sums.{Tells};

use crate::best::{Best, Mover};
use crate::load::load_of;
use crate::masks::{allows, lowest};
use lw_base::{Limits, NoMemory, Order, Row};
use std::alloc::Global;

/// The orders of a round: for each of its rows, in their order, where the thread is to go, if not where it is.
///
/// A row's mask, which is at its place in `masks`, allows the reactors whose bit is set, and all of them where none of the
/// bits below `reactors` is. A thread with less load than `limits.load` goes to the least reactor that it may go to. Any
/// other stays on a reactor other than 0 that its mask allows and whose rows' loads together are at most `limits.busy`. Any
/// other goes to the first of the reactors 1, .., R-1, 0 that its mask allows where what is planned so far and its own load
/// are at most `limits.core`; or, where there is none, to the first of them for which the least is planned. What is planned
/// for a reactor is the sum of the loads of the rows before that go to it or stay on it.
///
/// There are 1 to 16 reactors and 127 rows at most, each row's reactor is below `reactors`, and there is a mask for each row. It
/// fails for want of memory alone, and takes time in the number of rows times that of the reactors.
pub fn plan(
    alloc: Global,
    limits: Limits,
    reactors: u32,
    rows: &[Row],
    masks: &[u32],
) -> Result<Vec<Order>, NoMemory>
    requires reactors { (1 ≤ reactors) × (reactors ≤ 16) }
    requires few { length rows.now ≤ 127 }
    requires rows { All (λ w. w.reactor < reactors) rows.now }
    requires masks { length masks.now ≡ length rows.now }
    ensures { IfOk result (λ orders. orders.items ≡ plan limits reactors rows.now masks.now) }
{
    let cores = core_loads(alloc, reactors, rows)?;
    let mut planned: Vec<u32> = vec![in alloc; 0; reactors as usize]?;
    let mut orders = Vec::new(alloc);
    for place in 0..rows.len() {
        let row = rows[place];
        let to = choose(
            limits,
            cores.as_slice(),
            planned.as_slice(),
            row,
            masks[place],
        );
        let load = load_of(row.busy, row.idle);
        if let Some(here) = planned.get_mut(to as usize) {
            *here += load;
        }
        if to != row.reactor {
            orders.push(Order {
                thread: row.thread,
                to,
            })?;
        }
    }
    Ok(orders)
}

// The core load of each reactor: the loads of the rows on it, added up.
fn core_loads(alloc: Global, reactors: u32, rows: &[Row]) -> Result<Vec<u32>, NoMemory>
    requires few { length rows.now ≤ 127 }
    requires rows { All (λ w. w.reactor < reactors) rows.now }
    ensures count { IfOk result (λ sums. length sums.items ≡ reactors) }
    ensures each { IfOk result (λ sums. Tells (core_load rows.now) sums.items) }
{
    let mut sums: Vec<u32> = vec![in alloc; 0; reactors as usize]?;
    for row in rows {
        let load = load_of(row.busy, row.idle);
        if let Some(sum) = sums.get_mut(row.reactor as usize) {
            *sum += load;
        }
    }
    Ok(sums)
}

// The reactor that is chosen for a row, by the core loads and by what is planned for each reactor so far.
fn choose(limits: Limits, cores: &[u32], planned: &[u32], row: Row, mask: u32) -> u32
    requires reactors { (1 ≤ length planned.now) × (length planned.now ≤ 16) }
    requires cores { length cores.now ≡ length planned.now }
    requires row { row.reactor < length planned.now }
    ensures choice { result
        ≡ choice limits (length planned.now) (slice_index cores.now) (slice_index planned.now) row mask }
    ensures below { result < length planned.now }
{
    let reactors = planned.len() as u32;
    let load = load_of(row.busy, row.idle);
    if load < limits.load {
        return lowest(mask, reactors);
    }
    if stays(limits, cores, row, mask) {
        return row.reactor;
    }
    let best = Best::of(Mover { limits, load, mask }, planned);
    best.room.unwrap_or(best.least.unwrap_or(0))
}

// Whether a thread that isn't idle stays on its reactor.
fn stays(limits: Limits, cores: &[u32], row: Row, mask: u32) -> bool
    requires reactors { length cores.now ≤ 16 }
    requires row { row.reactor < length cores.now }
    ensures { result ≡ stays limits (length cores.now) (slice_index cores.now) row mask }
{
    row.reactor != 0
        && allows(mask, cores.len() as u32, row.reactor)
        && cores[row.reactor as usize] <= limits.busy
}
