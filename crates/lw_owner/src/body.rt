//! An owner as the body of a light thread.
ghost use Rattle.std.specs.Prelude.{◌≡◌, ℕ, ◌+◌, ◌^◌, ◌<◌, ◌≤◌, false, List, [], ◌∷◌, ◌++◌, OnOk};
ghost use Rattle.lw_model.specs.Threads.{op_at, thread_count};
ghost use Rattle.lw_mail.specs.Runs.{Run};
ghost use Rattle.lw_mail.specs.Saying.{letter_of};
ghost use Rattle.lw_mail.specs.Fitting.{Fits, MayAsk, MayRead, fits_mail};
ghost use Rattle.lw_channel.specs.Channels.{holds};
ghost use Rattle.lw_passing.specs.Passing.{PassesVisit};
ghost use Rattle.lw_owner.specs.Serving.{IsOwnerOf};
ghost use Rattle.lw_owner.specs.Handling.{is_strange, IsServed, AnswersPlain, AnswersRead, Does, Handles};

use crate::owner::Owner;
use crate::serving::{is_client, op_of, read, write_or_flush};
use lw_base::{NoMemory, Tick};
use lw_mail::{Content, Mail};
use lw_model::Script;
use lw_passing::{pass_cast, pass_visit};
use lw_poller::PollerId;
use lw_pool::Buffer;
use lw_thread::{Acts, Body, Work};
use lw_visit::VisitToken;
use std::sync::Wait;

// Whether no run sends this message to an owner: a request in the name of a client that didn't send it, say.
fn no_run_sends(script: &Script, message: &Mail) -> bool
    ensures { result ≡ is_strange script.now (letter_of message.now) }
{
    match &message.content {
        Content::Request { client, .. } | Content::Read { client, .. } => *client != message.sender,
        Content::Visit(token) => !is_client(script, token.origin()),
        Content::Cast(token) => !is_client(script, token.origin()),
        Content::Stop => false,
        _ => true,
    }
}

impl Owner {
    // Runs a write or a flush of a client, and asks to send the reply.
    fn answer(&mut self, client: u32, op: u32, acts: &mut Acts<Mail>) -> Result<(), NoMemory>
        requires asks { (r : Run) × IsOwnerOf r self.old × MayAsk r.script self.old.thread (op_at r.script client op) }
        requires client { client < acts.old.threads }
        requires room { self.old.image.writes + 1 < 2 ^ 64 }
        ensures { OnOk result (AnswersPlain client op
            (record { body = self.old; acts = acts.old }) (record { body = self.new; acts = acts.new })) }
    {
        let Some(of) = op_of(&self.script, client, op) else {
            unreachable!()
        };
        let reply = write_or_flush(&mut self.image, of, op);
        acts.send(client, Mail::new(reply))
    }

    // Runs a read of a client, and asks to send the reply with the buffer.
    fn answer_read(
        &self,
        client: u32,
        op: u32,
        buffer: Buffer,
        acts: &mut Acts<Mail>,
    ) -> Result<(), NoMemory>
        requires reads { (r : Run) × IsOwnerOf r self.now × MayRead r self.now.thread buffer (op_at r.script client op) }
        requires client { client < acts.old.threads }
        ensures { OnOk result (AnswersRead client op buffer
            (record { body = self.now; acts = acts.old }) (record { body = self.now; acts = acts.new })) }
    {
        let Some(of) = op_of(&self.script, client, op) else {
            unreachable!()
        };
        let reply = read(&self.image, of, op, buffer);
        acts.send(client, Mail::new(reply))
    }

    // Passes a visit on. Its set holds no channel, so it adds no mark.
    fn pass_on(&self, token: VisitToken, acts: &mut Acts<Mail>) -> Result<(), NoMemory>
        requires here { (token.goes_to ≡ self.now.thread) × (self.now.thread < token.threads) }
        requires threads { (token.threads ≡ acts.old.threads) × (token.origin < acts.old.threads) }
        requires none { holds self.now.set token.device ≡ false }
        ensures { OnOk result (PassesVisit self.now.thread [] token acts.old acts.new) }
    {
        pass_visit(self.alloc, &self.set, self.thread, token, acts)
    }

    // Does what the message asks for.
    fn serve(&mut self, content: Content, acts: &mut Acts<Mail>) -> Result<(), NoMemory>
        requires served { IsServed content }
        requires fits { (r : Run) × IsOwnerOf r self.old × Fits self.old.thread r content
            × (acts.old.threads ≡ thread_count r.script) }
        requires room { self.old.image.writes + 1 < 2 ^ 64 }
        ensures { OnOk result (Does content
            (record { body = self.old; acts = acts.old }) (record { body = self.new; acts = acts.new })) }
    {
        match content {
            Content::Request { client, op } => self.answer(client, op, acts),
            Content::Read { client, op, buffer } => self.answer_read(client, op, buffer, acts),
            Content::Visit(token) => self.pass_on(Box::into_inner(token), acts),
            Content::Cast(token) => {
                pass_cast(self.alloc, self.thread, Box::into_inner(token), acts)
            }
            Content::Stop => {
                self.ended = true;
                acts.ask_end();
                Ok(())
            }
            _ => unreachable!(),
        }
    }

    // Serves a message, or keeps it where no run sends it to an owner.
    fn handle(&mut self, message: Mail, acts: &mut Acts<Mail>) -> Result<(), NoMemory>
        requires fits { (r : Run) × IsOwnerOf r self.old × Fits self.old.thread r message.content
            × (acts.old.threads ≡ thread_count r.script) }
        requires writes { self.old.image.writes ≤ acts.old.ran }
        ensures { OnOk result (Handles message
            (record { body = self.old; acts = acts.old }) (record { body = self.new; acts = acts.new })) }
    {
        if no_run_sends(&self.script, &message) {
            return self.kept.push(message);
        }
        // Fewer than 2^47, and each write came with one of them: so one more can be counted.
        let _ran = acts.ran();
        let Mail { content, .. } = message;
        self.serve(content, acts)
    }
}

impl Body for Owner {
    ghost use Rattle.std.proofs.Common.{◌∙◌, length-set};
    ghost use Rattle.lw_thread.specs.Acts.{Known, Post, AllFit, and_run, asks_of, letters};
    ghost use Rattle.lw_thread.specs.Calls.{AreOf, IsToRun, IsBack, Adds};
    ghost use Rattle.lw_whole.specs.Letters.{Letter};
    ghost use Rattle.lw_whole.specs.Owners.{all_served};
    ghost use Rattle.lw_whole.specs.Unsent.{named};
    ghost use Rattle.lw_whole.proofs.Unsent.{first_made};
    ghost use Rattle.lw_owner.specs.Handling.{KeepsIt};
    ghost use Rattle.lw_owner.specs.Keeping.{Keeps, pairs, may_end, Runs, Ticks, TakesBack};

    type Message = Mail;

    ghost lawful = { Keeps };

    ghost ends = { may_end };

    ghost runs = { Runs };

    ghost ticks = { Ticks };

    ghost takes_back = { TakesBack };

    // The first send that was asked for is the next of the log that is made.
    ghost sending = { λ k live to x rest body within h. record {
      run = h.run;
      family = h.family;
      owner = h.owner;
      number = h.number;
      threads = length-set k.sent to _ ∙ h.threads;
      made = h.made;
      few_writes = h.few_writes;
      log = λ e. record {
        runs = (h.log e).runs;
        sends = (h.log e).sends;
        ran = (h.log e).ran;
        served = (h.log e).served;
        sent = first_made k.thread k.sent to x (pairs rest) (all_served (h.log e).sends) within (h.log e).sent;
        image = (h.log e).image;
        ended = (h.log e).ended;
      };
    } };

    // A message that is kept is the very one that came.
    fn run<R: Wait>(
        &mut self,
        _rt: &R,
        message: Mail,
        _now: Tick,
        acts: &mut Acts<Mail>,
    ) -> Result<(), NoMemory>
        requires { (k : Known Letter Run) × AreOf k acts.old
            × IsToRun letter_of (λ x. x.tag) fits_mail k message × Keeps k (asks_of letter_of acts.old) self.old }
        ensures lawful { OnOk result ((k : Known Letter Run) → AreOf k acts.old
            → IsToRun letter_of (λ x. x.tag) fits_mail k message → Keeps k (asks_of letter_of acts.old) self.old
            → Keeps (and_run k (letter_of message)) (asks_of letter_of acts.new) self.new) }
        ensures adds { OnOk result (Adds acts.old acts.new) }
        ensures fits { OnOk result ((k : Known Letter Run) → AreOf k acts.old
            → IsToRun letter_of (λ x. x.tag) fits_mail k message → Keeps k (asks_of letter_of acts.old) self.old
            → AllFit fits_mail k.family acts.old.pending → AllFit fits_mail k.family acts.new.pending) }
        ensures does { OnOk result (Runs (letter_of message) _now
            (record { body = self.old; acts = acts.old }) (record { body = self.new; acts = acts.new })) }
        ensures handles { OnOk result (Handles message
            (record { body = self.old; acts = acts.old }) (record { body = self.new; acts = acts.new })) }
    {
        self.handle(message, acts)
    }

    // An owner has no poller.
    #[tactic(auto, using(lw_thread::proofs::Adding::adds_none))]
    fn tick<R: Wait>(
        &mut self,
        _rt: &R,
        _poller: PollerId,
        _now: Tick,
        _acts: &mut Acts<Mail>,
    ) -> Result<Work, NoMemory> {
        Ok(Work::Idle)
    }

    // A reply or a token that comes back is kept: the very one that came.
    #[tactic(auto, using(lw_thread::proofs::Adding::adds_none))]
    fn returned<R: Wait>(
        &mut self,
        _rt: &R,
        _to: u32,
        message: Mail,
        acts: &mut Acts<Mail>,
    ) -> Result<(), NoMemory>
        requires none { acts.old.pending ≡ [] }
        requires called { (k : Known Letter Run) × (rest : List (Post Letter)) × AreOf k acts.old
            × IsBack letter_of named fits_mail k _to message
            × Keeps k (record {
              live = (asks_of letter_of acts.old).live;
              pending = record { to = _to; what = letter_of message } ∷ rest;
            }) self.old }
        ensures lawful { OnOk result ((k : Known Letter Run) (rest : List (Post Letter)) → AreOf k acts.old
            → IsBack letter_of named fits_mail k _to message
            → Keeps k (record {
              live = (asks_of letter_of acts.old).live;
              pending = record { to = _to; what = letter_of message } ∷ rest;
            }) self.old
            → Keeps k (record {
              live = (asks_of letter_of acts.new).live;
              pending = letters letter_of acts.new.pending ++ rest;
            }) self.new) }
        ensures adds { OnOk result (Adds acts.old acts.new) }
        ensures threads { acts.new.threads ≡ acts.old.threads }
        ensures fits { OnOk result ((k : Known Letter Run) (rest : List (Post Letter)) → AreOf k acts.old
            → IsBack letter_of named fits_mail k _to message
            → Keeps k (record {
              live = (asks_of letter_of acts.old).live;
              pending = record { to = _to; what = letter_of message } ∷ rest;
            }) self.old
            → AllFit fits_mail k.family acts.new.pending) }
        ensures does { OnOk result (TakesBack _to (letter_of message)
            (record { body = self.old; acts = acts.old }) (record { body = self.new; acts = acts.new })) }
        ensures keeps { OnOk result (KeepsIt message
            (record { body = self.old; acts = acts.old }) (record { body = self.new; acts = acts.new })) }
    {
        self.kept.push(message)
    }

    fn may_end(&self) -> bool {
        self.ended && self.kept.len() == 0
    }
}
