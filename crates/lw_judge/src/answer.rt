//! What a judge answers.
/// Whether a record is lawful.
#[derive(Copy, Clone, PartialEq, Eq, Debug)]
pub enum Verdict {
    /// Each of the nine rules holds.
    Lawful,
    /// The first rule that fails, from 1, and the first line of the record's text at which it does. A report has rule 0
    /// too, that it is the text of a record.
    Unlawful { clause: u8, line: u64 },
}
