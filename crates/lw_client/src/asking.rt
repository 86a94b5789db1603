//! How a client sends its requests.
ghost use Rattle.std.specs.Prelude.{◌≡◌, ◌⊎◌, ◌+◌, ◌<◌, ◌≤◌, true, false, length, Some, IfOk, OnOk};
ghost use Rattle.std.specs.Arc.{arc_value};
ghost use Rattle.lw_model.specs.Threads.{owner_of};
ghost use Rattle.lw_channel.specs.Channels.{Channels, channel_of};
ghost use Rattle.lw_client.specs.Doing.{asked, Refuses, SendsPlain, SendsRead, AsksPlain, AsksRead, IsFull, IsShort};
ghost use Rattle.lw_passing.specs.Passing.{Asks};
ghost use Rattle.lw_mail.specs.declared.mail.Content.{Content};
ghost use Rattle.lw_client.specs.Using.{CanUse};

use crate::client::{Client, Use};
use lw_base::NoMemory;
use lw_mail::{Content, Mail};
use lw_model::Answer;
use lw_pool::{Buffer, Class};
use lw_thread::Acts;
use std::sync::Wait;

impl Client {
    // How many references to the image's channel it has.
    fn references(&self, image: u32) -> u64
        ensures { (x : Channels) → self.now.set ≡ Some x → result ≡ (channel_of x image).references }
    {
        match &self.set {
            Some(set) => set.count(image),
            None => 0,
        }
    }

    // The number of the image's owner.
    fn owner(&self, image: u32) -> u32
        requires image { image < 16 }
        requires clients { length (arc_value self.now.script).clients ≤ 64 }
        ensures { result ≡ owner_of (arc_value self.now.script) image }
    {
        1 + self.script.clients.len() as u32 + image
    }

    // Counts the request of the next op, and lists it as sent.
    fn count_request(&mut self, image: u32, threads: u32, at: u64) -> Result<(), NoMemory>
        requires can { CanUse threads image self.old }
        requires referenced { (x : Channels) → self.old.set ≡ Some x → 1 ≤ (channel_of x image).references }
        requires room { self.old.requests < self.old.depth }
        ensures { OnOk result ((x : Channels) → self.old.set ≡ Some x → self.new ≡ asked at image x self.old) }
    {
        let Some(set) = &mut self.set else {
            unreachable!()
        };
        set.note_submit(image);
        let kept = self.uses.at(image as usize);
        self.uses.put(
            image as usize,
            Use {
                requests: kept.requests + 1,
                puts: kept.puts,
                owes: kept.owes,
            },
        );
        self.unanswered.put(self.next as usize, true);
        self.requests += 1;
        self.list(at, Answer::Sent)
    }

    // Sends the write or the flush that comes next.
    fn send_plain(&mut self, image: u32, acts: &mut Acts<Mail>) -> Result<(), NoMemory>
        requires can { CanUse acts.old.threads image self.old }
        requires referenced { (x : Channels) → self.old.set ≡ Some x → 1 ≤ (channel_of x image).references }
        requires room { self.old.requests < self.old.depth }
        ensures { OnOk result ((x : Channels) → self.old.set ≡ Some x →
            SendsPlain image x (record { body = self.old; acts = acts.old }) (record { body = self.new; acts = acts.new })) }
    {
        let client = self.thread;
        let op = self.next;
        let owner = self.owner(image);
        self.count_request(image, acts.threads(), acts.ran())?;
        acts.send(owner, Mail::new(Content::Request { client, op }))
    }

    // Sends the read that comes next, with its buffer.
    fn send_read(
        &mut self,
        image: u32,
        buffer: Buffer,
        acts: &mut Acts<Mail>,
    ) -> Result<(), NoMemory>
        requires can { CanUse acts.old.threads image self.old }
        requires referenced { (x : Channels) → self.old.set ≡ Some x → 1 ≤ (channel_of x image).references }
        requires room { self.old.requests < self.old.depth }
        ensures body { OnOk result ((x : Channels) → self.old.set ≡ Some x → self.new ≡ asked acts.old.ran image x self.old) }
        ensures sent { OnOk result (Asks (owner_of (arc_value self.old.script) image) (Content.Read self.old.thread self.old.next buffer) acts.old acts.new) }
    {
        let client = self.thread;
        let op = self.next;
        let owner = self.owner(image);
        self.count_request(image, acts.threads(), acts.ran())?;
        acts.send(owner, Mail::new(Content::Read { client, op, buffer }))
    }

    // Lists that it has no channel, where it has no reference. Answers whether it did.
    fn refuse(&mut self, image: u32, acts: &mut Acts<Mail>) -> Result<bool, NoMemory>
        requires can { CanUse acts.old.threads image self.old }
        ensures refused { IfOk result (λ refused. refused ≡ true → (x : Channels) → self.old.set ≡ Some x →
            Refuses image x (record { body = self.old; acts = acts.old }) (record { body = self.new; acts = acts.new })) }
        ensures may { IfOk result (λ refused. refused ≡ false → (self.new ≡ self.old) × ((x : Channels) → self.old.set ≡ Some x → 1 ≤ (channel_of x image).references)) }
        ensures same { acts.new ≡ acts.old }
    {
        if self.references(image) > 0 {
            return Ok(false);
        }
        self.list(acts.ran(), Answer::NoChannel)?;
        Ok(true)
    }

    // Does a write or a flush, unless it has to wait. Answers whether it did.
    pub(crate) fn ask(&mut self, image: u32, acts: &mut Acts<Mail>) -> Result<bool, NoMemory>
        requires can { CanUse acts.old.threads image self.old }
        ensures does { IfOk result (λ did. did ≡ true → AsksPlain image (record { body = self.old; acts = acts.old }) (record { body = self.new; acts = acts.new })) }
        ensures waits { IfOk result (λ did. did ≡ false → IsFull image self.old × (self.new ≡ self.old) × (acts.new ≡ acts.old)) }
    {
        if self.refuse(image, acts)? {
            return Ok(true);
        }
        if self.requests >= self.depth {
            return Ok(false);
        }
        self.send_plain(image, acts)?;
        Ok(true)
    }

    // Does a read that there is room for, unless no buffer waits in the pool. Answers whether it did.
    fn read_by<R: Wait>(
        &mut self,
        rt: &R,
        image: u32,
        class: Class,
        acts: &mut Acts<Mail>,
    ) -> Result<bool, NoMemory>
        requires can { CanUse acts.old.threads image self.old }
        requires referenced { (x : Channels) → self.old.set ≡ Some x → 1 ≤ (channel_of x image).references }
        requires room { self.old.requests < self.old.depth }
        ensures does { IfOk result (λ did. did ≡ true → (x : Channels) → self.old.set ≡ Some x →
            SendsRead image class x (record { body = self.old; acts = acts.old }) (record { body = self.new; acts = acts.new })) }
        ensures waits { IfOk result (λ did. did ≡ false → IsShort image class self.old × (self.new ≡ self.old) × (acts.new ≡ acts.old)) }
    {
        match self.pool.take(rt, class) {
            Ok(buffer) => {
                self.send_read(image, buffer, acts)?;
                Ok(true)
            }
            Err(_) => Ok(false),
        }
    }

    // Does a read, unless it has to wait. Answers whether it did.
    pub(crate) fn read<R: Wait>(
        &mut self,
        rt: &R,
        image: u32,
        class: Class,
        acts: &mut Acts<Mail>,
    ) -> Result<bool, NoMemory>
        requires can { CanUse acts.old.threads image self.old }
        ensures does { IfOk result (λ did. did ≡ true → AsksRead image class (record { body = self.old; acts = acts.old }) (record { body = self.new; acts = acts.new })) }
        ensures waits { IfOk result (λ did. did ≡ false → (IsFull image self.old ⊎ IsShort image class self.old) × (self.new ≡ self.old) × (acts.new ≡ acts.old)) }
    {
        if self.refuse(image, acts)? {
            return Ok(true);
        }
        if self.requests >= self.depth {
            return Ok(false);
        }
        self.read_by(rt, image, class, acts)
    }
}
