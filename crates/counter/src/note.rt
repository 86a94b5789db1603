//! The message that the counting thread sends itself.
use lw_base::{Tag, Tagged, What};

/// One more is to be counted. It is nothing but a tag.
#[derive(Clone, Copy, PartialEq, Eq, Debug)]
pub struct Note {
    tag: Tag,
}

impl Note {
    /// A note that isn't sent yet.
    pub fn new() -> Note {
        Note {
            tag: Tag {
                sender: 0,
                number: 0,
                what: What::Done,
            },
        }
    }
}

impl Tagged for Note {
    ghost use Rattle.std.specs.Prelude.{refl};
    ghost use Rattle.counter.specs.declared.note.Note.{Note};

    type Letter = Note;

    type Family = ();

    ghost letter = { λ n. n };

    ghost tag_of = { λ n. n.tag };

    ghost fits = { λ _ _ _. Unit {0} };

    ghost marked = { λ n s k. record n { tag = record n.tag { sender = s; number = k } } };

    ghost marked_tag = { λ n s k. refl };

    ghost marked_last = { λ n s k t j. refl };

    ghost marked_same = { λ n. refl };

    fn tag(&self) -> Tag {
        self.tag
    }

    fn mark(&mut self, sender: u32, number: u64) {
        self.tag.sender = sender;
        self.tag.number = number;
    }
}
