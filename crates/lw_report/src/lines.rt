//! A text as its lines, and reading them one after the other.
ghost use Rattle.std.specs.Prelude.{◌≡◌, ◌+◌, ◌<◌, ◌≤◌, [], ◌∷◌, length, drop, position, Some, None, IfOk, MatchOption};
ghost use Rattle.lw_base.specs.TextLines.{is_feed, line_length, pieces, is_nil};
ghost use Rattle.lw_report.specs.Machine.{taken, one, many, numbered, Says, SaysList};

use lw_base::NoMemory;
use lw_report_lines::Kind;
use std::alloc::{AllocError, AllocFailed, Global};
use std::marker::Model;

/// Why reading stopped.
#[derive(Copy, Clone, Drop)]
pub enum Stop {
    /// The first line that is left isn't one of those allowed next, or no line is left.
    BadLine,
    NoMemory,
}

impl From<AllocError> for Stop {
    ghost use Rattle.std.specs.Prelude.{◌≡◌};
    ghost use Rattle.lw_report.specs.declared.lines.Stop.TheVariants.{NoMemory};

    ghost from_gives = { λ _ e. e ≡ NoMemory };

    fn from(_error: AllocError) -> Stop {
        Stop::NoMemory
    }
}

impl<T: Drop> From<AllocFailed<T>> for Stop {
    ghost use Rattle.std.specs.Prelude.{◌≡◌};
    ghost use Rattle.lw_report.specs.declared.lines.Stop.TheVariants.{NoMemory};

    ghost from_gives = { λ _ e. e ≡ NoMemory };

    fn from(_error: AllocFailed<T>) -> Stop {
        Stop::NoMemory
    }
}

/// The lines of a text that are left, with the number of the first, from 1.
#[derive(Drop)]
pub struct Lines<'a> {
    rest: &'a [u8],
    end: usize,
    line: u64,
}

impl<'a> Model for Lines<'a> {
    ghost use Rattle.std.specs.Prelude.{◌≡◌, ◌+◌, ◌≤◌, length};
    ghost use Rattle.lw_base.specs.TextLines.{line_length, pieces};
    ghost use Rattle.lw_report.specs.Machine.{State};

    ghost Value = { State };

    ghost view = { λ a. record { line = a.line; lines = pieces a.rest.now } };

    ghost invariant = { λ a. (a.end ≡ line_length a.rest.now) × (a.line + length a.rest.now ≤ 18446744073709551615) };
}

fn is_feed(byte: u8) -> bool
    ensures { result ≡ is_feed byte }
{
    byte == b'\n'
}

fn first_feed(bytes: &[u8]) -> Option<usize>
    ensures { result ≡ position is_feed bytes.now }
{
    bytes.iter().position(|b| is_feed(*b))
}

fn line_length(bytes: &[u8]) -> usize
    ensures length { result ≡ line_length bytes.now }
    ensures within { result ≤ length bytes.now }
{
    match first_feed(bytes) {
        Some(place) => place + 1,
        None => bytes.len(),
    }
}

impl<'a> Lines<'a> {
    /// All lines of a text.
    pub fn of(text: &'a [u8]) -> Lines<'a>
        ensures { result ≡ record { line = 1; lines = pieces text.now } }
    {
        Lines {
            rest: text,
            end: line_length(text),
            line: 1,
        }
    }

    /// The number of the first line that is left.
    pub fn line(&self) -> u64
        ensures { result ≡ self.now.line }
    {
        self.line
    }

    /// Whether no line is left.
    pub fn is_empty(&self) -> bool
        ensures { result ≡ is_nil self.now.lines }
    {
        self.rest.len() == 0
    }

    // The first line that is left.
    fn first(&self) -> Option<&'a [u8]>
        ensures { MatchOption result (self.now.lines ≡ []) (λ l. self.now.lines ≡ l.now ∷ drop 1 self.now.lines) }
    {
        if self.rest.len() == 0 {
            None
        } else {
            Some(&self.rest[..self.end])
        }
    }

    // Goes on to the next line.
    fn advance(&mut self)
        requires { 0 < length self.old.lines }
        ensures { self.new ≡ record { line = self.old.line + 1; lines = drop 1 self.old.lines } }
    {
        self.rest = &self.rest[self.end..];
        self.end = line_length(self.rest);
        self.line += 1;
    }

    /// The first line that is left, where it is of the kind.
    pub fn take<K: Kind>(&mut self, alloc: Global, kind: &K) -> Result<Option<K::Value>, NoMemory>
        ensures { IfOk result (λ o. (o, self.new) ≡ taken (K.of kind.now) self.old) }
    {
        let Some(line) = self.first() else {
            return Ok(None);
        };
        match kind.read(alloc, line)? {
            Some(value) => {
                self.advance();
                Ok(Some(value))
            }
            None => Ok(None),
        }
    }

    /// One line of the kind.
    pub fn one<K: Kind>(&mut self, alloc: Global, kind: &K) -> Result<K::Value, Stop>
        ensures { Says result self.new (one (K.of kind.now) self.old) }
    {
        match self.take(alloc, kind)? {
            Some(value) => Ok(value),
            None => Err(Stop::BadLine),
        }
    }

    /// All lines of the kind, up to the first that isn't.
    pub fn many<K: Kind>(&mut self, alloc: Global, kind: &K) -> Result<Vec<K::Value>, NoMemory>
    where
        K::Value: Drop,
        ensures { IfOk result (λ v. (v.items, self.new) ≡ many (K.of kind.now) self.old) }
    {
        let mut items = Vec::new(alloc);
        while let Some(item) = self.take(alloc, kind)? {
            items.push(item)?;
        }
        Ok(items)
    }
}

/// A part of a report: one or more lines. Parts of a kind are numbered from 0.
pub trait Part {
    ghost use Rattle.std.specs.Prelude.{ℕ, Result};
    ghost use Rattle.lw_report.specs.Machine.{State};

    type Value;

    // What the part of a number says, and what is left behind it.
    ghost of: { Self → ℕ → State → Result (Self.Value × State) ℕ };

    fn read(&self, alloc: Global, number: u64, lines: &mut Lines<'_>) -> Result<Self::Value, Stop>
        ensures { Says result lines.new (of self.now number lines.old) };
}

/// So many parts, in order.
pub fn numbered<P: Part>(
    alloc: Global,
    lines: &mut Lines<'_>,
    part: &P,
    count: u64,
) -> Result<Vec<P::Value>, Stop>
where
    P::Value: Drop,
    ensures { SaysList result lines.new (numbered count 0 (P.of part.now) lines.old) }
{
    let mut items = Vec::new(alloc);
    for number in 0..count {
        match part.read(alloc, number, lines) {
            Ok(item) => items.push(item)?,
            Err(stop) => return Err(stop),
        }
    }
    Ok(items)
}
