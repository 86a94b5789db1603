//! What a judge says of the text of a record.
ghost use Rattle.std.specs.Prelude.{◌≤◌, length};
ghost use Rattle.lw_model.specs.declared.record.Record.{Record};
ghost use Rattle.lw_model.specs.Lawful.{Lawful};
ghost use Rattle.lw_model.specs.ReportText.{text_of};
ghost use Rattle.lw_report.specs.Parsed.{contents_of};
ghost use Rattle.lw_report.specs.Ranges.{InRange};
ghost use Rattle.lw_judge.specs.Reports.{IsLawfulReport, report_limit};

/// The text of a record that is lawful, and whose numbers fit their types, is a lawful report, unless it is longer than a
/// report may be.
pub fn lawful_records_are_lawful_reports()
    ensures { (r : Record) → InRange (contents_of r) → Lawful r →
        length (text_of r) ≤ report_limit → IsLawfulReport (text_of r) }
{}
