//! The lines of a report on threads that move: the scheduler's, the clock's, a round's, and the rows and orders under it.
ghost use Rattle.std.specs.Prelude.{◌≡◌};
ghost use Rattle.lw_report_lines.specs.MoveLines.{scheduler_in, clock_in, round_in, row_in, order_in};

use crate::kinds::{last32, last64};
use crate::parts::{after, number32, number64};
use crate::placed_lines::is_text;
use lw_model::{Order, Row, Scheduler, Span};

/// `round N TIME`
#[derive(Copy, Clone, Drop)]
pub struct RoundHead {
    pub number: u32,
    pub time: u64,
}

/// `scheduler static` or `scheduler dynamic`
pub fn scheduler(line: &[u8]) -> Option<Scheduler>
    ensures { result ≡ scheduler_in line.now }
{
    if is_text(line, "scheduler static") {
        Some(Scheduler::Static)
    } else if is_text(line, "scheduler dynamic") {
        Some(Scheduler::Dynamic)
    } else {
        None
    }
}

/// `clock FIRST LAST`
pub fn clock(line: &[u8]) -> Option<Span>
    ensures { result ≡ clock_in line.now }
{
    let rest = after(line, "clock")?;
    let (first, rest) = number64(rest)?;
    let last = last64(rest)?;
    Some(Span { first, last })
}

/// `round N TIME`
pub fn round(line: &[u8]) -> Option<RoundHead>
    ensures { result ≡ round_in line.now }
{
    let rest = after(line, "round")?;
    let (number, rest) = number32(rest)?;
    let time = last64(rest)?;
    Some(RoundHead { number, time })
}

/// `row THREAD REACTOR BUSY IDLE`
pub fn row(line: &[u8]) -> Option<Row>
    ensures { result ≡ row_in line.now }
{
    let rest = after(line, "row")?;
    let (thread, rest) = number32(rest)?;
    let (reactor, rest) = number32(rest)?;
    let (busy, rest) = number64(rest)?;
    let idle = last64(rest)?;
    Some(Row {
        thread,
        reactor,
        busy,
        idle,
    })
}

/// `order THREAD TO`
pub fn order(line: &[u8]) -> Option<Order>
    ensures { result ≡ order_in line.now }
{
    let rest = after(line, "order")?;
    let (thread, rest) = number32(rest)?;
    let to = last32(rest)?;
    Some(Order { thread, to })
}
