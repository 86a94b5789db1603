//! What the threads sent to each other.
ghost use Rattle.std.specs.Prelude.{◌≡◌, ◌==◌, ◌+◌, ◌<◌, ◌^◌, length, map, ◌∷◌, [], ◌++◌, ℕ, List, true, cond, reverse, IfOk, OnOk, option_map};
ghost use Rattle.lw_base.specs.declared.message.What.TheVariants as message;
ghost use Rattle.lw_model.specs.declared.record.Record.{Record};
ghost use Rattle.lw_model.specs.declared.step.Step.{Step};
ghost use Rattle.lw_model.specs.declared.step.Step.TheVariants as step_of;
ghost use Rattle.lw_model.specs.OwnOrder.{own_order_of};
ghost use Rattle.lw_model.specs.Threads.{thread_count, owner_of, is_client};
ghost use Rattle.lw_model.specs.Sent.{token_of, started, passed_on, referred, sent_by_did, sent_by_ran, sent_last, tokens_started_by};
ghost use Rattle.lw_judge_threads.specs.Holdings.{HoldsAt};
ghost use Rattle.lw_judge_messages.specs.Tokens.{what_of, AreRunners};
ghost use Rattle.lw_judge_messages.specs.SendsAt.{items_at, list_at, AreSendsAt, IsSized, Adds};

use crate::tokens::{Runners, Token};
use lw_base::{NoMemory, Tag, What};
use lw_judge_threads::{Holding, image_at, op_at};
use lw_model::{Answer, Did, Op, Record, Script, Step};
use std::alloc::Global;

/// What the threads so far sent to each thread, in the senders' own order.
#[derive(Drop)]
pub struct Sends {
    /// By the sender and then by the receiver.
    lists: Vec<Vec<Vec<What>>>,
    /// Those that clients started.
    tokens: Vec<Token>,
}

impl Sends {
    /// Nothing was sent so far between so many threads.
    pub fn new(alloc: Global, threads: usize) -> Result<Self, NoMemory>
        ensures { IfOk result (λ x. (r : Record) → thread_count r.script ≡ threads → AreSendsAt r 0 [] x) }
    {
        let mut lists = Vec::new(alloc);
        for _ in 0..threads {
            lists.push(empty_lists(alloc, threads)?)?;
        }
        Ok(Sends {
            lists,
            tokens: Vec::new(alloc),
        })
    }

    /// What a thread sent to another; nothing where one of the two is no thread.
    pub fn list(&self, sender: usize, receiver: usize) -> &[What]
        ensures { result.now ≡ list_at self.now sender receiver }
    {
        match self.lists.get(sender) {
            Some(lists) => match lists.get(receiver) {
                Some(list) => list.as_slice(),
                None => &[],
            },
            None => &[],
        }
    }

    /// The tokens that clients started.
    pub fn tokens(&self) -> &[Token]
        ensures { result.now ≡ self.now.tokens.items }
    {
        self.tokens.as_slice()
    }

    /// Goes past one step more of a thread, which holds so much before it.
    pub fn step(
        &mut self,
        of: &Record,
        runners: &Runners,
        thread: usize,
        holding: &Holding,
        step: &Step,
    ) -> Result<(), NoMemory>
        ensures { (past : List Step) → AreRunners of.now runners.now → HoldsAt of.now.script thread past holding.now
            → AreSendsAt of.now thread past self.old → OnOk result (AreSendsAt of.now thread (step.now ∷ past) self.new) }
    {
        match step {
            Step::Did { line, .. } => {
                if thread == 0 || thread > of.script.clients.len() {
                    return Ok(());
                }
                self.did(of, runners, thread, holding, line)
            }
            Step::Called { .. } => Ok(()),
            Step::Ran { tag, .. } => self.ran(of, runners, thread, tag),
        }
    }

    /// A thread has come to its end: what it sends last.
    pub fn finish(&mut self, of: &Record, thread: usize) -> Result<(), NoMemory>
        ensures { (past : List Step) → past ≡ reverse (own_order_of of.now thread)
            → AreSendsAt of.now thread past self.old → OnOk result (AreSendsAt of.now (thread + 1) [] self.new) }
    {
        if thread == 0 {
            return self.stop_owners(of);
        }
        if thread <= of.script.clients.len() {
            return self.send(thread, 0, What::Done);
        }
        Ok(())
    }

    // The app stops each owner.
    fn stop_owners(&mut self, of: &Record) -> Result<(), NoMemory>
        ensures { IsSized (thread_count of.now.script) self.old
            → OnOk result (Adds (thread_count of.now.script) 0 (sent_last of.now.script 0) [] self.old self.new) }
    {
        for device in 0..of.script.images.len() as u32 {
            self.send(0, owner_of(of, device), What::Stop)?;
        }
        Ok(())
    }

    // What a `did` line of a client sends.
    fn did(
        &mut self,
        of: &Record,
        runners: &Runners,
        thread: usize,
        holding: &Holding,
        line: &Did,
    ) -> Result<(), NoMemory>
        requires { is_client of.now.script thread ≡ true }
        ensures { (past : List Step) (i : ℕ) → AreRunners of.now runners.now → HoldsAt of.now.script thread past holding.now
            → IsSized (thread_count of.now.script) self.old
            → OnOk result (Adds (thread_count of.now.script) thread (sent_by_did of.now thread past line.now)
            (tokens_started_by of.now thread (step_of.Did i line.now)) self.old self.new) }
    {
        match line.answer {
            Answer::Sent => match image_at(&of.script, thread, line.op) {
                Some(device) => self.send(
                    thread,
                    owner_of(of, device),
                    What::Request { op: line.op },
                ),
                None => Ok(()),
            },
            Answer::Deferred => match image_at(&of.script, thread, line.op) {
                Some(device) => self.send(thread, thread, What::PutSelf { device }),
                None => Ok(()),
            },
            Answer::Closed => self.close(of, thread, holding),
            Answer::Started => match token_of(&of.script, thread, line.op) {
                Some(token) => self.start(runners, thread, token),
                None => Ok(()),
            },
            _ => Ok(()),
        }
    }

    // A client's last line: a putself of each device of which it holds a reference.
    fn close(&mut self, of: &Record, thread: usize, holding: &Holding) -> Result<(), NoMemory>
        ensures { (past : List Step) → HoldsAt of.now.script thread past holding.now → IsSized (thread_count of.now.script) self.old
            → OnOk result (Adds (thread_count of.now.script) thread
            (map (λ d. (thread, message.PutSelf d)) (referred of.now.script thread past)) [] self.old self.new) }
    {
        for device in 0..of.script.images.len() as u32 {
            if holding.references(device) > 0 {
                self.send(thread, thread, What::PutSelf { device })?;
            }
        }
        Ok(())
    }

    // A token sets out to the least thread that ran it.
    fn start(&mut self, runners: &Runners, thread: usize, token: Token) -> Result<(), NoMemory>
        ensures { (r : Record) (n : ℕ) → AreRunners r runners.now → IsSized n self.old
            → OnOk result (Adds n thread (started r (what_of token)) (what_of token ∷ []) self.old self.new) }
    {
        if let Some(to) = runners.first(&token) {
            self.send(thread, to as usize, token.what())?;
        }
        self.tokens.push(token)?;
        Ok(())
    }

    // What a message that was run sends.
    fn ran(
        &mut self,
        of: &Record,
        runners: &Runners,
        thread: usize,
        tag: &Tag,
    ) -> Result<(), NoMemory>
        ensures { (n : ℕ) → AreRunners of.now runners.now → IsSized n self.old
            → OnOk result (Adds n thread (sent_by_ran of.now thread tag.now) [] self.old self.new) }
    {
        if let What::Request { op } = tag.what {
            if thread <= of.script.clients.len() {
                return Ok(());
            }
            return self.send(thread, tag.sender as usize, What::Reply { op });
        }
        match Token::of(&tag.what) {
            Some(token) => self.pass_on(runners, thread, token),
            None => Ok(()),
        }
    }

    // A token goes to the next thread that ran it, or its completion home.
    fn pass_on(&mut self, runners: &Runners, thread: usize, token: Token) -> Result<(), NoMemory>
        ensures { (r : Record) (n : ℕ) → AreRunners r runners.now → IsSized n self.old
            → OnOk result (Adds n thread (passed_on r thread (what_of token)) [] self.old self.new) }
    {
        if let Some(to) = runners.next(&token, thread) {
            return self.send(thread, to as usize, token.what());
        }
        match token {
            Token::Visit { origin, op, .. } => {
                self.send(thread, origin as usize, What::Visited { op })
            }
            Token::Cast { origin, op } => self.send(thread, origin as usize, What::Casted { op }),
        }
    }

    // One message. To what is no thread, nothing is kept.
    fn send(&mut self, from: usize, to: usize, what: What) -> Result<(), NoMemory>
        ensures { (n : ℕ) → IsSized n self.old → OnOk result (Adds n from ((to, what) ∷ []) [] self.old self.new) }
    {
        match self.lists.get_mut(from) {
            Some(lists) => push_to(lists, to, what),
            None => Ok(()),
        }
    }
}

// Puts an item last in one of several lists, where there is such a list.
fn push_to(lists: &mut Vec<Vec<What>>, to: usize, what: What) -> Result<(), NoMemory>
    ensures { OnOk result ((length lists.new.items ≡ length lists.old.items)
        × ((u : ℕ) → u < length lists.old.items
        → items_at lists.new.items u ≡ items_at lists.old.items u ++ cond (to == u) (what ∷ []) [])) }
{
    match lists.get_mut(to) {
        Some(list) => {
            list.push(what)?;
            Ok(())
        }
        None => Ok(()),
    }
}

// So many empty lists.
fn empty_lists(alloc: Global, count: usize) -> Result<Vec<Vec<What>>, NoMemory>
    ensures { IfOk result (λ v. (length v.items ≡ count) × ((u : ℕ) → items_at v.items u ≡ [])) }
{
    let mut lists = Vec::new(alloc);
    for _ in 0..count {
        lists.push(Vec::new(alloc))?;
    }
    Ok(lists)
}

// The thread that owns a device.
fn owner_of(of: &Record, device: u32) -> usize
    ensures { result ≡ owner_of of.now.script device }
{
    1 + of.script.clients.len() + device as usize
}

// The token that an op starts, if it is a visit or a cast.
fn token_of(script: &Script, thread: usize, op: u32) -> Option<Token>
    requires { thread < 2 ^ 32 }
    ensures { option_map what_of result ≡ token_of script.now thread op }
{
    match op_at(script, thread, op)? {
        Op::Visit { image } => Some(Token::Visit {
            origin: thread as u32,
            op,
            device: *image,
        }),
        Op::Each => Some(Token::Cast {
            origin: thread as u32,
            op,
        }),
        _ => None,
    }
}
