//! The lines that stand once in a report.
ghost use Rattle.std.specs.Prelude.{◌≡◌};
ghost use Rattle.lw_report_lines.specs.Once.{fixed_text, number_word, number_least, number_most, pair_word};

use crate::line_kinds::Kind;
use crate::placed_lines::{is_text, number_line, pair_line};
use lw_base::NoMemory;
use lw_model::Home;
use std::alloc::Global;

/// A line that is always the same.
#[derive(Copy, Clone, Drop)]
pub enum FixedLine {
    Title,
    End,
}

impl FixedLine {
    fn text(self) -> &'static str
        ensures { result.now ≡ fixed_text self }
    {
        match self {
            FixedLine::Title => "lightrun report 1",
            FixedLine::End => "end",
        }
    }
}

impl Kind for FixedLine {
    ghost use Rattle.lw_report_lines.specs.Once.{fixed_in};

    type Value = FixedLine;

    ghost of = { λ k l. fixed_in k l };

    fn read(&self, _alloc: Global, line: &[u8]) -> Result<Option<FixedLine>, NoMemory> {
        let kind = *self;
        if is_text(line, kind.text()) {
            Ok(Some(kind))
        } else {
            Ok(None)
        }
    }
}

/// A word and one number.
#[derive(Copy, Clone, Drop)]
pub enum NumberLine {
    Period,
    Images,
    Clients,
}

impl NumberLine {
    fn word(self) -> &'static str
        ensures { result.now ≡ number_word self }
    {
        match self {
            NumberLine::Period => "period",
            NumberLine::Images => "images",
            NumberLine::Clients => "clients",
        }
    }

    fn least(self) -> u64
        ensures { result ≡ number_least self }
    {
        match self {
            NumberLine::Period => 1,
            NumberLine::Images | NumberLine::Clients => 0,
        }
    }

    fn most(self) -> u64
        ensures { result ≡ number_most self }
    {
        match self {
            NumberLine::Period => 1_000_000_000_000,
            NumberLine::Images | NumberLine::Clients => u64::MAX,
        }
    }
}

impl Kind for NumberLine {
    ghost use Rattle.lw_report_lines.specs.Once.{number_of_in};

    type Value = u64;

    ghost of = { λ k l. number_of_in k l };

    fn read(&self, _alloc: Global, line: &[u8]) -> Result<Option<u64>, NoMemory> {
        let kind = *self;
        Ok(number_line(line, kind.word(), kind.least(), kind.most()))
    }
}

/// A word and the two counts of a pool.
#[derive(Copy, Clone, Drop)]
pub enum PairLine {
    /// The pool as the script has it.
    Pool,
    /// The pool at the end.
    Left,
}

impl PairLine {
    fn word(self) -> &'static str
        ensures { result.now ≡ pair_word self }
    {
        match self {
            PairLine::Pool => "pool",
            PairLine::Left => "home",
        }
    }
}

impl Kind for PairLine {
    ghost use Rattle.lw_report_lines.specs.Once.{pair_of_in};

    type Value = Home;

    ghost of = { λ k l. pair_of_in k l };

    fn read(&self, _alloc: Global, line: &[u8]) -> Result<Option<Home>, NoMemory> {
        let kind = *self;
        Ok(pair_line(line, kind.word()))
    }
}

/// `reactors R`, 1 to 16
#[derive(Copy, Clone, Drop)]
pub struct ReactorsLine;

impl Kind for ReactorsLine {
    ghost use Rattle.lw_report_lines.specs.Once.{reactors_in};

    type Value = u32;

    ghost of = { λ k l. reactors_in l };

    fn read(&self, _alloc: Global, line: &[u8]) -> Result<Option<u32>, NoMemory> {
        match number_line(line, "reactors", 1, 16) {
            Some(reactors) => Ok(Some(reactors as u32)),
            None => Ok(None),
        }
    }
}
