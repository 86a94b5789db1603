//! A report read back: a machine over lines, and the laws of the texts of records.
#![tactic(auto)]

mod contents;
mod laws;
mod lines;
mod parsed;
mod report;
mod rounds;
mod sections;

pub use laws::{texts_are_of_one_record, texts_are_read};
pub use parsed::{Parsed, read_report};
