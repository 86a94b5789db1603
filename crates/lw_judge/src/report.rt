//! The text of a report: is it the text of a lawful record?
ghost use Rattle.std.specs.Prelude.{◌≡◌, ◌↔◌, ℕ, List, IfOk};
ghost use Rattle.lw_judge.specs.declared.answer.Verdict.{Verdict};
ghost use Rattle.lw_judge.specs.declared.answer.Verdict.TheVariants as answer;
ghost use Rattle.lw_judge.specs.Reports.{IsLawfulReport, IsReportVerdict};

use crate::answer::Verdict;
use crate::rules::judge;
use lw_base::NoMemory;
use lw_report::{Parsed, read_report};
use std::alloc::Global;

/// How many bytes a report may have.
pub const REPORT_LIMIT: usize = 268_435_456;

/// Judges the bytes of a report.
///
/// They fail rule 0 where they are no record's text, at the first bad line, and where there are too many of them, at
/// line 0.
pub fn judge_report(alloc: Global, bytes: &[u8]) -> Result<Verdict, NoMemory>
    ensures verdict { IfOk result (IsReportVerdict bytes.now) }
    ensures lawful { IfOk result (λ v. (v ≡ answer.Lawful) ↔ IsLawfulReport bytes.now) }
{
    if bytes.len() > REPORT_LIMIT {
        return Ok(Verdict::Unlawful { clause: 0, line: 0 });
    }
    match read_report(alloc, bytes)? {
        Parsed::Told(record) => judge(alloc, &record),
        Parsed::BadLine { line } => Ok(Verdict::Unlawful { clause: 0, line }),
    }
}

/// The bytes of a report have one verdict. A law is a function that does nothing: its clause is the law.
pub fn reports_have_one_verdict()
    ensures { (bytes : List ℕ) (v w : Verdict) → IsReportVerdict bytes v → IsReportVerdict bytes w
        → v ≡ w }
{}
