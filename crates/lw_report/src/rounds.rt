//! The lines that a dynamic run has alone.
ghost use Rattle.std.specs.Prelude.{◌≡◌, IfOk};
ghost use Rattle.lw_report.specs.Machine.{Says};
ghost use Rattle.lw_report.specs.Rounds.{round_of, rounds_at, moves_at};

use crate::contents::Moves;
use crate::lines::{Lines, Stop};
use lw_base::NoMemory;
use lw_model::{Items, Round, Scheduler};
use lw_report_lines::{ClockLine, OrderLine, RoundHead, RoundLine, RowLine};
use std::alloc::Global;

// What stands under a round's line.
fn round(alloc: Global, lines: &mut Lines<'_>, head: RoundHead) -> Result<Round, NoMemory>
    ensures { IfOk result (λ x. (x, lines.new) ≡ round_of head lines.old) }
{
    let rows = lines.many(alloc, &RowLine)?;
    let orders = lines.many(alloc, &OrderLine)?;
    Ok(Round {
        number: head.number,
        time: head.time,
        rows: Items::from_vec(rows),
        orders: Items::from_vec(orders),
    })
}

// All rounds, up to the first line that begins none.
fn rounds(alloc: Global, lines: &mut Lines<'_>) -> Result<Vec<Round>, NoMemory>
    ensures { IfOk result (λ v. (v.items, lines.new) ≡ rounds_at lines.old) }
{
    let mut rounds = Vec::new(alloc);
    while let Some(head) = lines.take(alloc, &RoundLine)? {
        rounds.push(round(alloc, lines, head)?)?;
    }
    Ok(rounds)
}

/// The clock's line and the rounds of a dynamic run, and no line of a static one.
pub fn moves(alloc: Global, lines: &mut Lines<'_>, scheduler: Scheduler) -> Result<Moves, Stop>
    ensures { Says result lines.new (moves_at scheduler lines.old) }
{
    match scheduler {
        Scheduler::Static => Ok(Moves {
            span: None,
            rounds: Items::new(alloc),
        }),
        Scheduler::Dynamic => {
            let span = lines.one(alloc, &ClockLine)?;
            let rounds = rounds(alloc, lines)?;
            Ok(Moves {
                span: Some(span),
                rounds: Items::from_vec(rounds),
            })
        }
    }
}
