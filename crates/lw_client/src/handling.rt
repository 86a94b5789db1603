//! What a client does with its messages.
ghost use Rattle.std.specs.Prelude.{◌≡◌, ℕ, ◌<◌, true, false, is_none, Some, OnOk};
ghost use Rattle.lw_model.specs.Threads.{thread_count};
ghost use Rattle.lw_mail.specs.Runs.{Run};
ghost use Rattle.lw_mail.specs.Fitting.{Fits};
ghost use Rattle.lw_mail.specs.declared.mail.Content.{Content};
ghost use Rattle.lw_passing.specs.Passing.{PassesVisit};
ghost use Rattle.lw_client.specs.Clients.{IsSound};
ghost use Rattle.lw_client.specs.Handling.{awaited, is_strange, answered_by, marks_with, Serves, Handles, Returns, SendsPast, goes_past};
ghost use Rattle.lw_pool.specs.PoolEnds.{filled_bytes, with_given};

use crate::client::Client;
use lw_base::NoMemory;
use lw_mail::{Content, Mail};
use lw_model::Replied;
use lw_ops::Kind;
use lw_passing::{pass_cast, pass_visit, skip_cast, skip_visit};
use lw_pool::Buffer;
use lw_thread::Acts;
use lw_visit::VisitToken;
use std::sync::Wait;

impl Client {
    // Lists the reply to a write or a flush, which is awaited.
    fn answer_plain(&mut self, op: u32, kind: Kind, answer: Replied) -> Result<(), NoMemory>
        requires awaits { is_none (awaited self.old op kind) ≡ false }
        requires sound { (r : Run) × IsSound r self.old }
        ensures { OnOk result ((d : ℕ) × (awaited self.old op kind ≡ Some d) × (self.new ≡ answered_by d op answer self.old)) }
    {
        let Some(image) = self.awaited(op, kind) else {
            unreachable!()
        };
        self.answer(op, image, answer)
    }

    // Lists the reply to a read, which is awaited.
    fn fill<R: Wait>(&mut self, rt: &R, op: u32, buffer: Buffer) -> Result<(), NoMemory>
        requires awaits { is_none (awaited self.old op Kind.Read) ≡ false }
        requires fits { (r : Run) × IsSound r self.old × Fits self.old.thread r (Content.Filled op buffer) }
        ensures { OnOk result ((d : ℕ) × (awaited self.old op Kind.Read ≡ Some d)
            × (self.new ≡ record (answered_by d op (Replied.Bytes (filled_bytes buffer)) self.old) { pool = with_given buffer.class self.old.pool })) }
    {
        let Some(image) = self.awaited(op, Kind::Read) else {
            unreachable!()
        };
        self.answer_read(rt, op, image, buffer)
    }

    // Passes a visit on, with its mark, or without its set past itself.
    fn pass_visit(&self, token: VisitToken, acts: &mut Acts<Mail>) -> Result<(), NoMemory>
        requires here { (token.goes_to ≡ self.now.thread) × (self.now.thread < token.threads) }
        requires threads { (token.threads ≡ acts.old.threads) × (token.origin < acts.old.threads) }
        ensures { OnOk result (PassesVisit self.now.thread (marks_with self.now.set self.now.thread token.device) token acts.old acts.new) }
    {
        match &self.set {
            Some(set) => pass_visit(self.alloc, set, self.thread, token, acts),
            None => skip_visit(self.alloc, self.thread, token, acts),
        }
    }

    // Does what a message asks for that isn't strange.
    fn serve<R: Wait>(
        &mut self,
        rt: &R,
        content: Content,
        acts: &mut Acts<Mail>,
    ) -> Result<(), NoMemory>
        requires served { is_strange self.old content ≡ false }
        requires fits { (r : Run) × IsSound r self.old × Fits self.old.thread r content × (acts.old.threads ≡ thread_count r.script) }
        ensures { OnOk result (Serves content (record { body = self.old; acts = acts.old }) (record { body = self.new; acts = acts.new })) }
    {
        match content {
            Content::Written { op } => self.answer_plain(op, Kind::Write, Replied::Ok),
            Content::Filled { op, buffer } => self.fill(rt, op, buffer),
            Content::Flushed { op, writes } => {
                self.answer_plain(op, Kind::Flush, Replied::Writes(writes))
            }
            Content::PutSelf { device } => {
                self.run_put(device);
                Ok(())
            }
            Content::Visit(token) => self.pass_visit(Box::into_inner(token), acts),
            Content::Visited(token) => self.end_visit(Box::into_inner(token)),
            Content::Cast(token) => pass_cast(
                self.alloc,
                self.thread,
                Box::into_inner(token),
                acts,
            ),
            Content::Casted(token) => self.end_cast(Box::into_inner(token)),
            _ => unreachable!(),
        }
    }

    // Serves a message, or keeps it where no run sends it.
    pub(crate) fn handle<R: Wait>(
        &mut self,
        rt: &R,
        message: Mail,
        acts: &mut Acts<Mail>,
    ) -> Result<(), NoMemory>
        requires { (r : Run) × IsSound r self.old × Fits self.old.thread r message.content × (acts.old.threads ≡ thread_count r.script) }
        ensures { OnOk result (Handles message (record { body = self.old; acts = acts.old }) (record { body = self.new; acts = acts.new })) }
    {
        if self.is_strange(&message.content) {
            return self.kept.push(message);
        }
        let Mail { content, .. } = message;
        self.serve(rt, content, acts)
    }

    // Sends a token past a client that has ended.
    fn send_past(&self, to: u32, content: Content, acts: &mut Acts<Mail>) -> Result<(), NoMemory>
        requires goes { goes_past self.now to content ≡ true }
        requires fits { (r : Run) × Fits to r content × (acts.old.threads ≡ thread_count r.script) }
        ensures past { OnOk result (SendsPast to content (record { body = self.now; acts = acts.old }) (record { body = self.now; acts = acts.new })) }
        ensures threads { acts.new.threads ≡ acts.old.threads }
    {
        match content {
            Content::Visit(token) => skip_visit(self.alloc, to, Box::into_inner(token), acts),
            Content::Cast(token) => skip_cast(self.alloc, to, Box::into_inner(token), acts),
            _ => unreachable!(),
        }
    }

    // Sends on a token that came back, or keeps what came back.
    pub(crate) fn take_back(
        &mut self,
        to: u32,
        message: Mail,
        acts: &mut Acts<Mail>,
    ) -> Result<(), NoMemory>
        requires { (r : Run) × Fits to r message.content × (acts.old.threads ≡ thread_count r.script) }
        ensures returns { OnOk result (Returns to message (record { body = self.old; acts = acts.old }) (record { body = self.new; acts = acts.new })) }
        ensures threads { acts.new.threads ≡ acts.old.threads }
    {
        if !self.goes_past(to, &message.content) {
            return self.kept.push(message);
        }
        let Mail { content, .. } = message;
        self.send_past(to, content, acts)
    }
}
