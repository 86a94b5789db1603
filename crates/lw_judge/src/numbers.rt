//! Whether each message is numbered by how many of its sender came before.
ghost use Rattle.std.specs.Prelude.{◌≡◌, [], IfOk};
ghost use Rattle.lw_model.specs.Moves.{number_fits};
ghost use Rattle.lw_model.specs.Verdict.{least_failing, numbers};
ghost use Rattle.lw_judge_threads.specs.Firsts.{first_unfit};
ghost use Rattle.lw_judge_threads.specs.LinesOf.{AreThreadLines};

use lw_base::{NoMemory, Tag};
use lw_judge_threads::{ThreadLines, at_line, lesser};
use lw_model::Record;
use std::alloc::Global;
use std::collections::HashMap;

/// The first `ran` line whose number isn't how many of its sender came before it.
pub fn numbers(alloc: Global, of: &Record, layout: &[ThreadLines]) -> Result<Option<u64>, NoMemory>
    requires { AreThreadLines of.now layout.now }
    ensures { IfOk result (λ line. line ≡ least_failing (numbers of.now)) }
{
    let mut least = None;
    for (thread, lines) in layout.iter().enumerate() {
        let place = misnumbered(alloc, of.threads.as_slice()[thread].ran.as_slice())?;
        least = lesser(least, at_line(lines.ran, place));
    }
    Ok(least)
}

// The place of the first message whose number isn't how many of its sender came before it.
fn misnumbered(alloc: Global, ran: &[Tag]) -> Result<Option<usize>, NoMemory>
    ensures { IfOk result (λ place. place ≡ first_unfit number_fits 0 [] ran.now) }
{
    let mut counts: HashMap<u32, u64> = HashMap::new(alloc);
    for (place, tag) in ran.iter().enumerate() {
        let before = counts.get(&tag.sender).copied().unwrap_or(0);
        if tag.number != before {
            return Ok(Some(place));
        }
        counts.insert(tag.sender, before + 1)?;
    }
    Ok(None)
}
