//! What the program says of its own reports: what the command `run` wrote, the command `check` accepts.
ghost use Rattle.std.specs.Prelude.{◌≡◌, ◌≤◌, ℕ, List, length, take, Option, Some, Ok, Err};
ghost use Rattle.lw_base.specs.TextLines.{pieces};
ghost use Rattle.lw_model.specs.declared.record.Record.{Record};
ghost use Rattle.lw_report.specs.Report.{reading};
ghost use Rattle.lw_report.specs.Parsed.{contents_of};
ghost use Rattle.lw_judge.specs.Reports.{IsLawfulReport, report_limit};
ghost use Rattle.lw_program.specs.Outside.{seen};
ghost use Rattle.lw_laws.specs.Written.{HasWritten};

use lw_base::{Sink, Source};

/// What `run` wrote is a lawful report, which is what `check` accepts, unless it is longer than a report may be. Its
/// record was printed, so that its numbers fit their types needs no premise.
pub fn written_reports_are_lawful<I: Source, O: Sink>()
    ensures { (words : List (List ℕ)) (input input_after : I) (out out_after : O) (told : Option Record) (bytes : List ℕ) →
        HasWritten words (seen I.left I.faults O.holds O.faults input input_after out out_after) told bytes →
        length bytes ≤ report_limit → IsLawfulReport bytes }
{}

/// What `run` wrote is read as what the record says that was told.
pub fn written_reports_are_read<I: Source, O: Sink>()
    ensures { (words : List (List ℕ)) (input input_after : I) (out out_after : O) (told : Option Record) (bytes : List ℕ) →
        HasWritten words (seen I.left I.faults O.holds O.faults input input_after out out_after) told bytes →
        (r : Record) → told ≡ Some r → reading bytes ≡ Ok (contents_of r) }
{}

/// What `run` wrote doesn't begin with the first lines of any bytes up to their first bad line, that line among them.
pub fn bad_lines_are_not_written<I: Source, O: Sink>()
    ensures { (words : List (List ℕ)) (input input_after : I) (out out_after : O) (told : Option Record) (bytes : List ℕ) →
        HasWritten words (seen I.left I.faults O.holds O.faults input input_after out out_after) told bytes →
        (others : List ℕ) (line : ℕ) → reading others ≡ Err line →
        ¬ (take line (pieces bytes) ≡ take line (pieces others)) }
{}
