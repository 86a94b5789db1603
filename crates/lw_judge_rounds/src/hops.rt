//! Where each thread started, and to where it hopped.
ghost use Rattle.std.specs.Prelude.{◌≡◌, IfOk};
ghost use Rattle.lw_model.specs.Verdict.{homes_and_hops, least_failing};
ghost use Rattle.lw_judge_threads.specs.LinesOf.{AreThreadLines};
ghost use Rattle.lw_judge_rounds.specs.OrdersOf.{AreOrders};

use crate::orders::Orders;
use lw_base::NoMemory;
use lw_judge_threads::{ThreadLines, at_line, failing, lesser};
use lw_model::Record;
use std::alloc::Global;

/// The first `thread` line with another home than the thread's number modulo the reactors, or the first `hop` line that
/// isn't of a later round than its thread's hop before, or that no round with its number orders.
pub fn homes_and_hops(
    alloc: Global,
    of: &Record,
    layout: &[ThreadLines],
) -> Result<Option<u64>, NoMemory>
    requires { AreThreadLines of.now layout.now }
    ensures { IfOk result (λ line. line ≡ least_failing (homes_and_hops of.now)) }
{
    let orders = Orders::of(alloc, of.rounds.as_slice())?;
    Ok(first_misplaced(of, layout, &orders))
}

// The same, by the orders of all rounds.
fn first_misplaced(of: &Record, layout: &[ThreadLines], orders: &Orders) -> Option<u64>
    requires lines { AreThreadLines of.now layout.now }
    requires orders { AreOrders of.now.rounds orders.now }
    ensures { result ≡ least_failing (homes_and_hops of.now) }
{
    let mut least = None;
    for (thread, lines) in layout.iter().enumerate() {
        let told = &of.threads.as_slice()[thread];
        let is_home = told.home as usize == thread % of.reactors as usize;
        let homeless = failing(is_home, lines.thread);
        let unfit = orders.unfit_hop(thread as u32, told.hops.as_slice());
        least = lesser(least, lesser(homeless, at_line(lines.hops, unfit)));
    }
    least
}
