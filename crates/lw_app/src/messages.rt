//! What the app does with messages.
ghost use Rattle.std.specs.Prelude.{◌≡◌, ℕ, ◌<◌, ◌≤◌, true, All, OnOk};
ghost use Rattle.lw_device.specs.Rows.{latches};
ghost use Rattle.lw_channel.specs.Channels.{IsEmpty};
ghost use Rattle.lw_model.specs.Threads.{thread_count, is_client};
ghost use Rattle.std.specs.Arc.{arc_value};
ghost use Rattle.lw_mail.specs.Runs.{Run};
ghost use Rattle.lw_mail.specs.Saying.{letter_of};
ghost use Rattle.lw_mail.specs.Fitting.{Fits};
ghost use Rattle.lw_app.specs.Apps.{IsApp};
ghost use Rattle.lw_app.specs.Handling.{awaits, has_stopped, serves, sends_past, takes_in, Handles, HandlesBack};

use crate::app::{APP, App, Stage};
use lw_base::NoMemory;
use lw_channel::ChannelSet;
use lw_mail::{Content, Mail};
use lw_passing::{pass_cast, pass_visit, skip_cast, skip_visit};
use lw_thread::Acts;

impl App {
    // Whether the thread is a client.
    fn is_client(&self, thread: u32) -> bool
        ensures { result ≡ is_client (arc_value self.now.script) thread }
    {
        0 < thread && thread as usize <= self.script.clients.len()
    }

    // Whether the Done of this client is still to come. Of a thread that is no client none is.
    fn awaits(&self, client: u32) -> bool
        ensures { result ≡ awaits self.now.awaited client }
    {
        match client.checked_sub(1) {
            Some(place) => self.awaited.has(place),
            None => false,
        }
    }

    // Whether it has sent its Stops.
    pub(crate) fn has_stopped(&self) -> bool
        ensures { result ≡ has_stopped self.now.stage }
    {
        match self.stage {
            Stage::Stopped => true,
            Stage::Waiting | Stage::Calling => false,
        }
    }

    // Whether the message is one that a run sends to the app now.
    fn serves(&self, message: &Mail) -> bool
        ensures { result ≡ serves self.now (letter_of message.now) }
    {
        match &message.content {
            Content::Done(_) => self.awaits(message.sender),
            Content::Visit(token) => !self.has_stopped() && self.is_client(token.origin()),
            Content::Cast(token) => !self.has_stopped() && self.is_client(token.origin()),
            _ => false,
        }
    }

    // Whether a message that comes back from this thread is a token that is to go past it.
    fn sends_past(&self, past: u32, message: &Mail) -> bool
        ensures { result ≡ sends_past self.now past (letter_of message.now) }
    {
        if self.has_stopped() || !self.is_client(past) {
            return false;
        }
        match &message.content {
            Content::Visit(token) => token.origin() != past,
            Content::Cast(token) => token.origin() != past,
            _ => false,
        }
    }

    // Takes in the set of a client whose Done has come.
    fn take_in(&mut self, client: u32, set: ChannelSet)
        requires awaited { awaits self.old.awaited client ≡ true }
        requires registry { latches set.row ≡ latches self.old.set.row }
        requires empty { IsEmpty set }
        requires free { All (λ e. (e.view.visit ≡ 0) × (e.view.begun ≤ e.view.fired)) set.row.seats }
        ensures { self.new ≡ takes_in client set self.old }
    {
        self.awaited.clear(client - 1);
        self.set.take_in(set);
    }

    // Serves a message, or keeps it.
    pub(crate) fn handle(&mut self, message: Mail, acts: &mut Acts<Mail>) -> Result<(), NoMemory>
        requires fits { (r : Run) × (n : ℕ) × IsApp r n self.old × Fits 0 r message.content
            × (acts.old.threads ≡ thread_count r.script) }
        ensures { OnOk result (Handles message
            (record { body = self.old; acts = acts.old }) (record { body = self.new; acts = acts.new })) }
    {
        if !self.serves(&message) {
            return self.kept.push(message);
        }
        let Mail {
            sender,
            content,
            ..
        } = message;
        match content {
            Content::Done(set) => {
                self.take_in(sender, Box::into_inner(set));
                Ok(())
            }
            Content::Visit(token) => {
                pass_visit(self.alloc, &self.set, APP, Box::into_inner(token), acts)
            }
            Content::Cast(token) => pass_cast(self.alloc, APP, Box::into_inner(token), acts),
            _ => unreachable!(),
        }
    }

    // Sends a token that comes back past the client that it was to go to, or keeps what comes back.
    pub(crate) fn handle_back(
        &mut self,
        past: u32,
        message: Mail,
        acts: &mut Acts<Mail>,
    ) -> Result<(), NoMemory>
        requires fits { (r : Run) × (n : ℕ) × IsApp r n self.old × Fits past r message.content
            × (acts.old.threads ≡ thread_count r.script) }
        ensures handles { OnOk result (HandlesBack past message
            (record { body = self.old; acts = acts.old }) (record { body = self.new; acts = acts.new })) }
        ensures threads { acts.new.threads ≡ acts.old.threads }
    {
        if !self.sends_past(past, &message) {
            return self.kept.push(message);
        }
        let Mail { content, .. } = message;
        match content {
            Content::Visit(token) => skip_visit(self.alloc, past, Box::into_inner(token), acts),
            Content::Cast(token) => skip_cast(self.alloc, past, Box::into_inner(token), acts),
            _ => unreachable!(),
        }
    }
}
