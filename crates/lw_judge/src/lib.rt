//! Judges the record of a run: whether it is lawful, and else which rule fails and at which line.
#![tactic(auto)]

mod answer;
mod homes;
mod numbers;
mod report;
mod rules;
mod walk;

pub use answer::Verdict;
pub use report::{REPORT_LIMIT, judge_report, reports_have_one_verdict};
pub use rules::judge;
