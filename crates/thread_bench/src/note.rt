//! The message of the runs.
ghost use Rattle.std.specs.Prelude.{◌≡◌, ◌+◌, ◌≤◌, [], Some, IfOk, OnOk, length};
ghost use Rattle.lw_latch.specs.RingWord.{most_sent};
ghost use Rattle.thread_bench.specs.Notes.{AreNotes};

use lw_base::{NoMemory, Tag, Tagged, What};
use lw_ring::{SendEnd, SendRefusal};
use std::sync::Wait;

/// How many notes a run has at most.
const LONGEST_RUN: u64 = 8;

/// A tag, and something to carry.
#[derive(Clone, Copy, PartialEq, Eq, Debug)]
pub struct Note {
    pub tag: Tag,
    pub value: u64,
}

impl Note {
    pub fn new(sender: u32, number: u64) -> Self
        ensures { (result.tag.sender ≡ sender) × (result.tag.number ≡ number) }
    {
        let tag = Tag {
            sender,
            number,
            what: What::Done,
        };
        Note { tag, value: number }
    }
}

impl Tagged for Note {
    ghost use Rattle.std.specs.Prelude.{refl};
    ghost use Rattle.thread_bench.specs.declared.note.Note.{Note};

    type Letter = Note;

    type Family = ();

    ghost letter = { λ n. n };

    ghost tag_of = { λ n. n.tag };

    ghost fits = { λ _ _ _. Unit {0} };

    ghost marked = { λ n s k. record n { tag = record n.tag { sender = s; number = k } } };

    ghost marked_tag = { λ n s k. refl };

    ghost marked_last = { λ n s k t j. refl };

    ghost marked_same = { λ n. refl };

    fn tag(&self) -> Tag {
        self.tag
    }

    fn mark(&mut self, sender: u32, number: u64) {
        self.tag.sender = sender;
        self.tag.number = number;
    }
}

/// Sends the note that comes next at this end.
pub fn put<R: Wait>(rt: &R, end: &mut SendEnd<Note>) -> Result<(), SendRefusal<Note>>
    requires { end.old.family ≡ Some tt }
    ensures ring { (end.new.queue ≡ end.old.queue) × (end.new.latch ≡ end.old.latch) }
    ensures end { (end.new.family ≡ end.old.family) × (end.new.sender ≡ end.old.sender) }
{
    let note = Note::new(end.sender(), end.sent());
    end.send(rt, note)
}

/// Sends the `count` notes that come next at this end in one run, in this vector.
pub fn put_run<R: Wait>(
    rt: &R,
    end: &mut SendEnd<Note>,
    mut run: Vec<Note>,
    count: u64,
) -> Result<Option<SendRefusal<Vec<Note>>>, NoMemory>
    requires count { (1 ≤ count) × (count ≤ LONGEST_RUN) }
    requires run { run.items ≡ [] }
    requires family { end.old.family ≡ Some tt }
    ensures end { end.new.family ≡ end.old.family }
{
    fill_run(&mut run, end.sender(), end.sent(), count)?;
    Ok(end.send_run(rt, run).err())
}

// The next notes of a sender.
fn fill_run(run: &mut Vec<Note>, sender: u32, first: u64, count: u64) -> Result<(), NoMemory>
    requires count { (count ≤ LONGEST_RUN) × (first ≤ most_sent) }
    requires run { run.old.items ≡ [] }
    ensures count { OnOk result (length run.new.items ≡ count) }
    ensures notes { OnOk result (AreNotes sender first run.new.items) }
{
    for k in 0..count {
        run.push(Note::new(sender, first + k))?;
    }
    Ok(())
}
