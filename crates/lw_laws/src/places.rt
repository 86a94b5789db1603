//! Where each line of a record's text stands.
ghost use Rattle.std.specs.Prelude.{◌≡◌, ℕ, Some};
ghost use Rattle.lw_model.specs.declared.record.Record.{Record};
ghost use Rattle.lw_model.specs.Verdict.{verdict};
ghost use Rattle.lw_laws.specs.LinePlaces.{LinesStand};
ghost use Rattle.lw_laws.specs.NamedLines.{IsLineOf, words_of};

/// What is numbered as a thread's line, a `hop`, `ran`, `did`, `called`, `reply` or `seen` line, a device's, the clock's,
/// a round's with its rows and orders, or the `home` line, stands at that place of the record's text, counted from 1. The
/// line behind a round is the next round's or `home`.
pub fn lines_stand_where_numbered()
    ensures { (r : Record) → LinesStand r }
{}

/// The line that a verdict names stands in the record's text, and it begins with a word of those lines at which the
/// verdict's rule fails: no verdict names a line of another kind, or one behind the text.
pub fn verdict_names_a_line()
    ensures { (r : Record) (clause line : ℕ) → verdict r ≡ Some (clause, line)
        → IsLineOf r (words_of clause) line }
{}
