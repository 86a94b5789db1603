//! A text as its lines, and reading them one after the other.
ghost use Rattle.std.specs.Prelude.{◌≡◌, ◌+◌, ◌<◌, ◌≤◌, [], ◌∷◌, length, drop, position, Some, None, IfSome, MatchOption};
ghost use Rattle.lw_base.specs.TextLines.{is_feed, line_length, pieces, is_nil};
ghost use Rattle.lw_walk.specs.WalkLines.{taken};
ghost use Rattle.lw_walk.specs.WalkForm.{event_in, sizes_in};

use crate::walk::Sizes;
use crate::walk::form::{event, sizes};
use lw_world::WorldEvent;
use std::marker::Model;

/// The lines of a text that are left, with the number of the first, from 1.
#[derive(Drop)]
pub struct Lines<'a> {
    rest: &'a [u8],
    end: usize,
    line: u64,
}

impl<'a> Model for Lines<'a> {
    ghost use Rattle.std.specs.Prelude.{◌≡◌, ◌+◌, ◌≤◌, length};
    ghost use Rattle.lw_base.specs.TextLines.{line_length, pieces};
    ghost use Rattle.lw_walk.specs.WalkLines.{Left};

    ghost Value = { Left };

    ghost view = { λ a. record { line = a.line; lines = pieces a.rest.now } };

    ghost invariant = { λ a. (a.end ≡ line_length a.rest.now) × (a.line + length a.rest.now ≤ 18446744073709551615) };
}

fn is_feed(byte: u8) -> bool
    ensures { result ≡ is_feed byte }
{
    byte == b'\n'
}

fn first_feed(bytes: &[u8]) -> Option<usize>
    ensures { result ≡ position is_feed bytes.now }
{
    bytes.iter().position(|b| is_feed(*b))
}

fn line_length(bytes: &[u8]) -> usize
    ensures length { result ≡ line_length bytes.now }
    ensures within { result ≤ length bytes.now }
{
    match first_feed(bytes) {
        Some(place) => place + 1,
        None => bytes.len(),
    }
}

impl<'a> Lines<'a> {
    /// All lines of a text.
    pub fn of(text: &'a [u8]) -> Lines<'a>
        ensures { result ≡ record { line = 1; lines = pieces text.now } }
    {
        Lines {
            rest: text,
            end: line_length(text),
            line: 1,
        }
    }

    /// The number of the first line that is left.
    pub fn line(&self) -> u64
        ensures { result ≡ self.now.line }
    {
        self.line
    }

    /// Whether no line is left.
    pub fn is_empty(&self) -> bool
        ensures { result ≡ is_nil self.now.lines }
    {
        self.rest.len() == 0
    }

    // The first line that is left.
    fn first(&self) -> Option<&'a [u8]>
        ensures { MatchOption result (self.now.lines ≡ []) (λ l. self.now.lines ≡ l.now ∷ drop 1 self.now.lines) }
    {
        if self.rest.len() == 0 {
            None
        } else {
            Some(&self.rest[..self.end])
        }
    }

    // Goes on to the next line.
    fn advance(&mut self)
        requires { 0 < length self.old.lines }
        ensures { self.new ≡ record { line = self.old.line + 1; lines = drop 1 self.old.lines } }
    {
        self.rest = &self.rest[self.end..];
        self.end = line_length(self.rest);
        self.line += 1;
    }

    /// The first line that is left, where it is an event.
    pub fn event(&mut self) -> Option<WorldEvent>
        ensures { (result, self.new) ≡ taken event_in self.old }
    {
        let Some(line) = self.first() else {
            return None
        };
        match event(line) {
            Some(event) => {
                self.advance();
                Some(event)
            }
            None => None,
        }
    }

    /// The first line that is left, where it tells the sizes of a world.
    pub fn sizes(&mut self) -> Option<Sizes>
        ensures taken { (result, self.new) ≡ taken sizes_in self.old }
        ensures threads { IfSome result (λ s. (1 ≤ s.threads) × (s.threads ≤ 81)) }
        ensures reactors { IfSome result (λ s. (1 ≤ s.reactors) × (s.reactors ≤ 16)) }
        ensures devices { IfSome result (λ s. s.devices ≤ 16) }
    {
        let Some(line) = self.first() else {
            return None
        };
        match sizes(line) {
            Some(sizes) => {
                self.advance();
                Some(sizes)
            }
            None => None,
        }
    }
}
