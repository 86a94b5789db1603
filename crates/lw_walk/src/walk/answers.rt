//! The answers to the events of a walk.
ghost use Rattle.std.specs.Prelude.{◌≡◌, ◌+◌, ◌≤◌, ◌++◌, ℕ, true, string_bytes, length, None, OnOk, IfOk};
ghost use Rattle.std.specs.List.{filter_map};
ghost use Rattle.lw_world.specs.Sums.{at};
ghost use Rattle.lw_base.specs.TextLines.{is_nil};
ghost use Rattle.lw_walk.specs.WalkForm.{bad_event, event_in, stopped_at};
ghost use Rattle.lw_walk.specs.Walk.{answers, event_line, refused, state_text};

use crate::walk::lines::Lines;
use lw_world::{World, WorldRefusal};
use std::alloc::AllocError;

fn push_answer(
    out: &mut String,
    number: u64,
    answer: Result<(), WorldRefusal>,
) -> Result<(), AllocError>
    ensures { OnOk result (string_bytes out.new ≡ string_bytes out.old ++ event_line number (refused answer)) }
{
    match answer {
        Ok(()) => writeln!(out, "{} ok", number),
        Err(refusal) => {
            let why = refusal.number();
            writeln!(out, "{} refused {}", number, why)
        }
    }
}

// Lets all events happen up to the first line that is none. Each answer goes to the end of `out`.
fn push_events(out: &mut String, world: &mut World, lines: &mut Lines<'_>) -> Result<(), AllocError>
    requires fresh { (s r : ℕ) → at world.old.sent s r ≡ 0 }
    requires few { length lines.old.lines ≤ 16777216 }
    ensures lines { OnOk result (bad_event lines.old.line lines.old.lines ≡ stopped_at lines.new) }
    ensures text { OnOk result (is_nil lines.new.lines ≡ true → string_bytes out.new ++ state_text world.new
        ≡ string_bytes out.old ++ answers world.old 1 (filter_map event_in lines.old.lines)) }
{
    let mut number: u64 = 0;
    while let Some(event) = lines.event() {
        number += 1;
        push_answer(out, number, world.step(&event))?;
    }
    Ok(())
}

/// The answers to all events, or the number of the first line that is none.
pub fn push_answers(
    out: &mut String,
    world: &mut World,
    lines: &mut Lines<'_>,
) -> Result<Option<u64>, AllocError>
    requires fresh { (s r : ℕ) → at world.old.sent s r ≡ 0 }
    requires few { length lines.old.lines ≤ 16777216 }
    ensures bad { IfOk result (λ o. bad_event lines.old.line lines.old.lines ≡ o) }
    ensures text { IfOk result (λ o. o ≡ None → string_bytes out.new ++ state_text world.new
        ≡ string_bytes out.old ++ answers world.old 1 (filter_map event_in lines.old.lines)) }
{
    push_events(out, world, lines)?;
    if lines.is_empty() {
        Ok(None)
    } else {
        Ok(Some(lines.line()))
    }
}
