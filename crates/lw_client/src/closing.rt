//! How a client closes, and how it is done.
ghost use Rattle.std.specs.Prelude.{◌≡◌, ◌<◌, ◌≤◌, true, false, Some, None, is_some, IfOk, OnOk};
ghost use Rattle.std.specs.Arc.{arc_value};
ghost use Rattle.lw_model.specs.Threads.{op_at};
ghost use Rattle.lw_poller.specs.Pollers.{times};
ghost use Rattle.lw_channel.specs.Channels.{Channels, IsEmpty};
ghost use Rattle.lw_client.specs.Clients.{active};
ghost use Rattle.lw_client.specs.Turning.{may_close, closed, GivesBack, SendsSet, Tells, Stays};
ghost use Rattle.lw_client.specs.Using.{MayGive};

use crate::client::{Client, Stage, Waits};
use crate::starting::ACTIVE;
use lw_base::NoMemory;
use lw_channel::ChannelSet;
use lw_mail::{Content, Mail};
use lw_model::{Answer, Did};
use lw_ops::{op_of, remove};
use lw_thread::Acts;

/// The number of the app's thread.
const APP: u32 = 0;

impl Client {
    // Whether it has an op left.
    fn has_op(&self) -> bool
        ensures { result ≡ is_some (op_at (arc_value self.now.script) self.now.thread self.now.next) }
    {
        op_of(&self.script, self.thread, self.next).is_some()
    }

    // Whether all its ops are done, no request is unanswered, nothing is waited for, and it hasn't closed.
    pub(crate) fn may_close(&self) -> bool
        ensures { result ≡ may_close self.now }
    {
        match (self.stage, self.waits) {
            (Stage::Runs, Waits::Nothing) => !self.has_op() && self.requests == 0,
            _ => false,
        }
    }

    // Lists that it closes.
    pub(crate) fn list_closed(&mut self, at: u64) -> Result<(), NoMemory>
        ensures { OnOk result (self.new ≡ closed at self.old) }
    {
        self.did.push(Did {
            at,
            op: self.next,
            answer: Answer::Closed,
        })?;
        self.stage = Stage::Closed;
        Ok(())
    }

    // Gives back all references of a device, where it has any.
    pub(crate) fn give_back(&mut self, image: u32, acts: &mut Acts<Mail>) -> Result<(), NoMemory>
        requires { MayGive acts.old.threads image self.old }
        ensures { OnOk result (GivesBack image (record { body = self.old; acts = acts.old }) (record { body = self.new; acts = acts.new })) }
    {
        let Some(set) = &mut self.set else {
            unreachable!()
        };
        match set.put_all(image) {
            Ok(_) => self.defer(image, acts),
            Err(_) => Ok(()),
        }
    }

    // Sends its set to the app, and asks to end.
    fn tell(&mut self, set: ChannelSet, acts: &mut Acts<Mail>) -> Result<(), NoMemory>
        requires some { 1 ≤ acts.old.threads }
        requires live { 1 ≤ times active acts.old.pollers }
        ensures { OnOk result ((self.new ≡ record self.old { stage = Stage.Done }) × SendsSet set acts.old acts.new) }
    {
        let set = Box::new(self.alloc, set)?;
        acts.send(APP, Mail::new(Content::Done(set)))?;
        remove(acts, ACTIVE);
        acts.ask_end();
        self.stage = Stage::Done;
        Ok(())
    }

    // Whether it has no channel.
    fn is_empty(&self) -> bool
        ensures empty { result ≡ true → (x : Channels) × (self.now.set ≡ Some x) × IsEmpty x }
        ensures some { result ≡ false → (x : Channels) → self.now.set ≡ Some x → IsEmpty x → ⊥ }
    {
        match &self.set {
            Some(set) => set.is_empty(),
            None => false,
        }
    }

    // Is done, where it has closed, has no channel and owes no callback. Answers whether it is.
    pub(crate) fn end(&mut self, acts: &mut Acts<Mail>) -> Result<bool, NoMemory>
        requires some { 1 ≤ acts.old.threads }
        requires live { self.old.stage ≡ Stage.Closed → 1 ≤ times active acts.old.pollers }
        requires set { self.old.stage ≡ Stage.Closed → (x : Channels) × (self.old.set ≡ Some x) }
        ensures told { IfOk result (λ told. told ≡ true → (x : Channels) × Tells x (record { body = self.old; acts = acts.old }) (record { body = self.new; acts = acts.new })) }
        ensures stays { IfOk result (λ told. told ≡ false → Stays self.old × (self.new ≡ self.old) × (acts.new ≡ acts.old)) }
    {
        match self.stage {
            Stage::Closed => self.end_closed(acts),
            _ => Ok(false),
        }
    }

    // Is done, where it has no channel and owes no callback. Answers whether it is.
    fn end_closed(&mut self, acts: &mut Acts<Mail>) -> Result<bool, NoMemory>
        requires stage { self.old.stage ≡ Stage.Closed }
        requires some { 1 ≤ acts.old.threads }
        requires live { 1 ≤ times active acts.old.pollers }
        requires set { (x : Channels) × (self.old.set ≡ Some x) }
        ensures told { IfOk result (λ told. told ≡ true → (x : Channels) × Tells x (record { body = self.old; acts = acts.old }) (record { body = self.new; acts = acts.new })) }
        ensures stays { IfOk result (λ told. told ≡ false → Stays self.old × (self.new ≡ self.old) × (acts.new ≡ acts.old)) }
    {
        if !self.is_empty() || !self.owes_none() {
            return Ok(false);
        }
        let Some(set) = self.set.take() else {
            unreachable!()
        };
        self.tell(set, acts)?;
        Ok(true)
    }
}
