//! What a message is to a ring.
ghost use Rattle.std.specs.Prelude.{◌≡◌};

use crate::message::Tag;

/// A message that carries its tag.
///
/// Contracts speak of a message by its letter: plain data with the tag in it, which a list of sent messages can hold
/// after the message itself was taken. No letter and no family is ever made; only contracts see them.
pub trait Tagged {
    ghost use Rattle.std.specs.Prelude.{ℕ};
    ghost use Rattle.lw_base.specs.declared.message.Tag.{Tag};

    /// Plain data with the tag in it.
    type Letter;

    /// Plain data that names a run: its places, rings, pool, registry and script.
    type Family;

    ghost letter: { Self → Self.Letter };

    ghost tag_of: { Self.Letter → Tag };

    // Of a receiver's number, the run's family and a message.
    ghost fits: { ℕ → Self.Family → Self → Type 0 };

    // A letter with another sender and number.
    ghost marked: { Self.Letter → ℕ → ℕ → Self.Letter };

    fn tag(&self) -> Tag
        ensures { result ≡ tag_of (letter self.now) };

    /// Sets the tag's sender and number, and nothing else.
    fn mark(&mut self, sender: u32, number: u64)
        ensures letter { letter self.new ≡ marked (letter self.old) sender number }
        ensures fits { (to : ℕ) (family : Self.Family) → fits to family self.old → fits to family self.new };

    ghost marked_tag: { (x : Self.Letter) (s n : ℕ) → tag_of (marked x s n) ≡ record { sender = s; number = n; what = (tag_of x).what } };

    // Marking changes nothing but the tag: the last marking tells all, and marking with its own sender and number
    // changes nothing.
    ghost marked_last: { (x : Self.Letter) (s n t k : ℕ) → marked (marked x s n) t k ≡ marked x t k };

    ghost marked_same: { (x : Self.Letter) → marked x (tag_of x).sender (tag_of x).number ≡ x };
}
