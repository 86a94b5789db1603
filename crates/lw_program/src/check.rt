//! The command `check`: a report is judged.
ghost use Rattle.std.specs.Prelude.{◌≡◌, IfOk, IfErr};
ghost use Rattle.lw_judge.specs.Reports.{IsLawfulReport};
ghost use Rattle.lw_program.specs.Commands.{Explains};
ghost use Rattle.lw_program.specs.Checks.{check_command, lawful_text};

use crate::command::{Command, Told};
use crate::fault::Fault;
use lw_base::{Clock, Gate, NoMemory};
use lw_judge::{REPORT_LIMIT, Verdict, judge_report};
use std::alloc::Global;
use std::sync::Wait;

/// What is written of a lawful report.
const LAWFUL: &str = "lawful\n";

/// The judgement of a report.
#[derive(Copy, Clone)]
pub struct CheckCommand;

impl Command for CheckCommand {
    ghost use Rattle.lw_program.specs.Checks.{check_command};

    type Value = ();

    ghost is = { λ _. check_command };

    fn limit(&self) -> Option<usize> {
        Some(REPORT_LIMIT)
    }

    fn answer<R: Wait, C: Clock + Drop, G: Gate>(
        self,
        _rt: &R,
        alloc: Global,
        bytes: &[u8],
        _clocks: Vec<C>,
        _gate: &G,
    ) -> Result<Told<()>, Fault> {
        judgement_of(alloc, bytes)
    }
}

// The word for a lawful report, or the first rule that it fails.
fn judgement_of(alloc: Global, bytes: &[u8]) -> Result<Told<()>, Fault>
    ensures told { IfOk result (λ told. IsLawfulReport bytes.now × (told.text.items ≡ lawful_text)) }
    ensures fault { IfErr result (Explains check_command bytes.now) }
{
    match judge_report(alloc, bytes) {
        Ok(Verdict::Lawful) => match lawful_word(alloc) {
            Ok(text) => Ok(Told { value: (), text }),
            Err(_) => Err(Fault::NoMemory),
        },
        Ok(Verdict::Unlawful { clause, line }) => Err(Fault::Unlawful { clause, line }),
        Err(_) => Err(Fault::NoMemory),
    }
}

// The text for a lawful report.
fn lawful_word(alloc: Global) -> Result<Vec<u8>, NoMemory>
    ensures { IfOk result (λ text. text.items ≡ lawful_text) }
{
    Vec::from_slice(alloc, LAWFUL.as_bytes())
}
