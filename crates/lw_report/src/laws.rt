//! What is proved of the texts of records. A law is a function that does nothing: its clause is the law.
ghost use Rattle.std.specs.Prelude.{◌≡◌, Ok};
ghost use Rattle.lw_model.specs.declared.record.Record.{Record};
ghost use Rattle.lw_model.specs.ReportText.{text_of};
ghost use Rattle.lw_report.specs.Report.{reading};
ghost use Rattle.lw_report.specs.Parsed.{contents_of};
ghost use Rattle.lw_report.specs.Ranges.{InRange};

/// The text of a record is read, without a bad line, as what the record says.
pub fn texts_are_read()
    ensures { (r : Record) → InRange (contents_of r) →
        reading (text_of r) ≡ Ok (contents_of r) }
{}

/// Each record has one text, and no text is that of two records.
pub fn texts_are_of_one_record()
    ensures { (r s : Record) →
        InRange (contents_of r) → InRange (contents_of s) →
        text_of r ≡ text_of s → r ≡ s }
{}
