//! What waits to be run by one thread, and what it has run.
ghost use Rattle.std.specs.Prelude.{◌≡◌, ◌<◌, [], ◌∷◌, ◌++◌, length, replicate, slice_index, OnOk, OnErr, IfOk, MatchOption, IfSome, true};
ghost use Rattle.std.specs.List.{list_all};
ghost use Rattle.lw_model.specs.Printable.{has_a_line};
ghost use Rattle.lw_target.specs.Messages.{IsPrintable};
ghost use Rattle.lw_target.specs.WholeRun.{are_numbered};

use crate::acts::Outgoing;
use crate::mail::Mail;
use lw_base::{NoMemory, Tag};
use lw_model::Items;
use std::alloc::Global;
use std::collections::VecDeque;
use std::marker::Model;

/// The messages to one thread, in the order in which they came, with a count per sender, and the tags of those that
/// the thread has run.
#[derive(Drop)]
pub struct Post {
    waiting: VecDeque<Mail>,
    sent: Vec<u64>,
    ran: Vec<Tag>,
}

impl Model for Post {
    ghost use Rattle.std.specs.Prelude.{◌≡◌, true};
    ghost use Rattle.std.specs.List.{All, list_all};
    ghost use Rattle.lw_model.specs.Printable.{has_a_line};
    ghost use Rattle.lw_target.specs.Messages.{Inbox, IsPrintable};
    ghost use Rattle.lw_target.specs.Numbering.{IsNumbered};

    ghost Value = { Inbox };

    ghost view = { λ p. record { waiting = p.waiting.items; sent = p.sent.items; ran = p.ran.items } };

    ghost invariant = { λ p. All (λ m. IsPrintable m.tag.what m.load) p.waiting.items
        × (list_all (λ m. has_a_line m.what) p.ran.items ≡ true)
        × IsNumbered p.ran.items p.waiting.items p.sent.items };
}

impl Post {
    /// An empty one, to which so many threads may send.
    pub fn new(alloc: Global, senders: usize) -> Result<Post, NoMemory>
        ensures { IfOk result (λ post. post ≡ record { waiting = []; sent = replicate senders 0; ran = [] }) }
    {
        Ok(Post {
            waiting: VecDeque::new(alloc),
            sent: vec![in alloc; 0; senders]?,
            ran: Vec::new(alloc),
        })
    }

    /// Puts a message last. It is numbered by how many its sender had sent here before.
    pub fn push(&mut self, sender: u32, out: Outgoing) -> Result<(), NoMemory>
        requires sender { sender < length self.old.sent }
        requires printable { IsPrintable out.what out.load }
        ensures waiting { OnOk result (self.new.waiting ≡ self.old.waiting ++ record {
          tag = record { sender = sender; number = slice_index self.old.sent sender; what = out.what };
          load = out.load;
        } ∷ []) }
        ensures ran { OnOk result (self.new.ran ≡ self.old.ran) }
        ensures senders { OnOk result (length self.new.sent ≡ length self.old.sent) }
    {
        let number = self.sent[sender as usize];
        let tag = Tag {
            sender,
            number,
            what: out.what,
        };
        self.waiting.push_back(Mail {
            tag,
            load: out.load,
        })?;
        self.sent[sender as usize] = number.saturating_add(1);
        Ok(())
    }

    /// How many messages wait.
    pub fn len(&self) -> usize
        ensures { result ≡ length self.now.waiting }
    {
        self.waiting.len()
    }

    /// How many messages were run.
    pub fn ran(&self) -> u64
        ensures { result ≡ length self.now.ran }
    {
        self.ran.len() as u64
    }

    /// The next message, which is listed as run. Without memory nothing changes.
    pub fn take(&mut self) -> Result<Option<Mail>, NoMemory>
        ensures first { IfOk result (λ o. MatchOption o (self.old.waiting ≡ [])
            (λ m. self.old.waiting ≡ m ∷ self.new.waiting)) }
        ensures printable { IfOk result (λ o. IfSome o (λ m. IsPrintable m.tag.what m.load)) }
        ensures ran { IfOk result (λ o. MatchOption o (self.new ≡ self.old)
            (λ m. self.new.ran ≡ self.old.ran ++ m.tag ∷ [])) }
        ensures senders { OnOk result (self.new.sent ≡ self.old.sent) }
        ensures err { OnErr result (self.new ≡ self.old) }
    {
        let Some(next) = self.waiting.front() else {
            return Ok(None);
        };
        self.ran.push(next.tag)?;
        Ok(self.waiting.pop_front())
    }

    /// The tags of the messages that were run.
    pub fn into_ran(self) -> Items<Tag>
        ensures ran { result ≡ self.ran }
        ensures lines { list_all (λ m. has_a_line m.what) result ≡ true }
        ensures numbered { are_numbered result ≡ true }
    {
        Items::from_vec(self.ran)
    }
}
