//! The rounds of a dynamic run.
ghost use Rattle.std.specs.Prelude.{◌≡◌, ◌+◌, ◌<◌, ◌^◌, ◌∷◌, [], List, Some, IfOk, length, nat_le, nat_lt, not, ◌||◌};
ghost use Rattle.lw_base.specs.declared.moves.Round.{Round};
ghost use Rattle.lw_model.specs.Lines.{clock_line, round_size};
ghost use Rattle.lw_model.specs.Rounds.{round_fits};
ghost use Rattle.lw_model.specs.Verdict.{clock_tests, least_failing, round_tests, rounds_and_orders};
ghost use Rattle.lw_judge_rounds.specs.RoundsAt.{AllowAll, ComesBehind};

use crate::planned::{EVERY_REACTOR, unfit_row, unplanned_line};
use lw_base::{NoMemory, Round, Tick};
use lw_judge_threads::{after, behind_round, failing, lesser};
use lw_model::{Record, Span};
use lw_sched::due;
use std::alloc::Global;

/// How many rounds a run makes at most.
const MOST_ROUNDS: usize = 10_000;

/// What came before a round.
#[derive(Copy, Clone, Drop)]
pub struct Before {
    /// How many rounds.
    pub count: usize,
    /// The time of the last, or the run's first reading where there was none.
    pub time: Tick,
}

/// The first line at which the rule on rounds and orders fails: the `clock` line, which is of the number `clock`, a
/// `round`, `row` or `order` line, the line behind a round that lacks an order, or the `home` line where a round is
/// overdue. A static run has none.
///
/// It takes time in the number of rows times that of the reactors.
pub fn rounds_and_orders(alloc: Global, of: &Record, clock: u64) -> Result<Option<u64>, NoMemory>
    requires { clock ≡ clock_line of.now }
    ensures { IfOk result (λ line. line ≡ least_failing (rounds_and_orders of.now)) }
{
    match of.span {
        Some(span) => dynamic_line(alloc, of, span, clock),
        None => Ok(None),
    }
}

// The same of a dynamic run, from its first to its last reading.
fn dynamic_line(alloc: Global, of: &Record, span: Span, clock: u64) -> Result<Option<u64>, NoMemory>
    requires clock { clock ≡ clock_line of.now }
    requires span { of.now.span ≡ Some span }
    ensures { IfOk result (λ line. line ≡ least_failing (clock_tests of.now span)) }
{
    let masks = vec![in alloc; EVERY_REACTOR; of.threads.len()]?;
    let mut least = failing(span.first <= span.last, clock);
    let mut line = after(clock, 1)?;
    let mut before = Before {
        count: 0,
        time: span.first,
    };
    for round in of.rounds.as_slice() {
        let next = behind_round(round, line)?;
        let found = round_line(alloc, of, span, before, round, masks.as_slice(), line)?;
        least = lesser(least, found);
        line = next;
        before = Before {
            count: before.count + 1,
            time: round.time,
        };
    }
    let in_time = none_is_overdue(of.period, before, span.last);
    Ok(lesser(least, failing(in_time, line)))
}

// The first line at which a round fails.
fn round_line(
    alloc: Global,
    of: &Record,
    span: Span,
    before: Before,
    round: &Round,
    masks: &[u32],
    line: u64,
) -> Result<Option<u64>, NoMemory>
    requires masks { AllowAll of.now masks.now }
    requires few { line + round_size round.now < 2 ^ 64 }
    ensures { IfOk result (λ failing. (past : List Round) → ComesBehind span.first past before
        → failing ≡ least_failing (round_tests of.now span line past round.now)) }
{
    let own = failing(fits(of.period, span, before, round), line);
    let rows = line + 1;
    let below = match unfit_row(of, round.rows.as_slice()) {
        Some(place) => Some(rows + place as u64),
        None => unplanned_line(alloc, of, round, masks, rows + round.rows.len() as u64)?,
    };
    Ok(lesser(own, below))
}

// Whether a round has the next number, and comes when it may.
fn fits(period: u64, span: Span, before: Before, round: &Round) -> bool
    ensures { (past : List Round) → ComesBehind span.first past before
        → result ≡ round_fits period span past round.now }
{
    before.count < MOST_ROUNDS
        && round.number as usize == before.count + 1
        && is_past(before.time, period, round.time)
        && round.time <= span.last
}

// Whether no further round was due at the last reading.
fn none_is_overdue(period: u64, before: Before, last: Tick) -> bool
    ensures { result ≡ (not (nat_lt before.count 10000) || nat_lt last (before.time + period)) }
{
    before.count >= MOST_ROUNDS || !is_past(before.time, period, last)
}

// Whether a time is at least a period past another.
fn is_past(before: Tick, period: Tick, time: Tick) -> bool
    ensures { result ≡ nat_le (before + period) time }
{
    before <= time && due(before, period, time)
}
