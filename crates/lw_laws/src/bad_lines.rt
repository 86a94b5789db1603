//! What a bad line says of a text.
ghost use Rattle.std.specs.Prelude.{◌≡◌, ℕ, List, take, Err};
ghost use Rattle.lw_base.specs.TextLines.{pieces};
ghost use Rattle.lw_model.specs.declared.record.Record.{Record};
ghost use Rattle.lw_model.specs.ReportText.{text_of};
ghost use Rattle.lw_report.specs.Report.{reading};
ghost use Rattle.lw_report.specs.Parsed.{contents_of};
ghost use Rattle.lw_report.specs.Ranges.{InRange};

/// A bad line is bad whatever follows: no record has a text that begins with the first lines of the bytes up to their
/// first bad line, that line among them.
pub fn bad_lines_are_no_record_s()
    ensures { (bytes : List ℕ) (line : ℕ) → reading bytes ≡ Err line →
        (r : Record) → InRange (contents_of r) →
        ¬ (take line (pieces (text_of r)) ≡ take line (pieces bytes)) }
{}
