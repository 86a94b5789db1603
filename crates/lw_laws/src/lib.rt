//! Laws that join the record, its text, and its judge. A law is a function that does nothing: its clause is the law.
#![tactic(auto)]

mod bad_lines;
mod judged;
mod places;
mod written;

pub use bad_lines::bad_lines_are_no_record_s;
pub use judged::lawful_records_are_lawful_reports;
pub use places::{lines_stand_where_numbered, verdict_names_a_line};
pub use written::{
    bad_lines_are_not_written, written_reports_are_lawful, written_reports_are_read,
};
