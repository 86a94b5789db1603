//! The tokens of visits and casts, and the threads that ran each.
ghost use Rattle.std.specs.Prelude.{◌≡◌, ◌≢◌, ◌++◌, ◌<◌, [], ◌∷◌, ℕ, true, cond, nat_lt, nat_le, IfOk, OnOk};
ghost use Rattle.lw_model.specs.declared.record.Record.{Record};
ghost use Rattle.lw_model.specs.Threads.{thread_count};
ghost use Rattle.lw_model.specs.Sent.{first_runner};
ghost use Rattle.lw_model.specs.Lawful.{has_run};
ghost use Rattle.lw_judge_messages.specs.Tokens.{what_of, token_in, threads_under, AreRunners, is_run, with_last, IsAbove};

use lw_base::{NoMemory, Tag, What};
use lw_model::Record;
use std::alloc::Global;
use std::collections::HashMap;

/// The token of a visit or of a cast, which goes from thread to thread.
#[derive(Copy, Clone, PartialEq, Eq, Hash)]
pub enum Token {
    /// Of the visit that is this op of thread `origin`.
    Visit { origin: u32, op: u32, device: u32 },
    /// Of the cast that is this op of thread `origin`.
    Cast { origin: u32, op: u32 },
}

impl Token {
    /// The token that a message is, if it is one.
    pub fn of(what: &What) -> Option<Token>
        ensures { result ≡ token_in what.now }
    {
        match *what {
            What::Visit { origin, op, device } => Some(Token::Visit { origin, op, device }),
            What::Cast { origin, op } => Some(Token::Cast { origin, op }),
            _ => None,
        }
    }

    /// What a message with this token is for.
    pub fn what(self) -> What
        ensures { result ≡ what_of self }
    {
        match self {
            Token::Visit { origin, op, device } => What::Visit { origin, op, device },
            Token::Cast { origin, op } => What::Cast { origin, op },
        }
    }
}

/// The threads that ran each token, ascending.
#[derive(Drop)]
pub struct Runners {
    by_token: HashMap<Token, Vec<u32>>,
}

impl Runners {
    /// The threads that ran each token of a record.
    pub fn new(alloc: Global, of: &Record) -> Result<Self, NoMemory>
        ensures { IfOk result (AreRunners of.now) }
    {
        let mut runners = Runners {
            by_token: HashMap::new(alloc),
        };
        for (thread, lines) in of.threads.as_slice().iter().enumerate() {
            runners.add_thread(alloc, thread as u32, lines.ran.as_slice())?;
        }
        Ok(runners)
    }

    /// The threads that ran a token, ascending.
    pub fn of(&self, token: &Token) -> &[u32]
        ensures { result.now ≡ threads_under self.now token.now }
    {
        match self.by_token.get(token) {
            Some(threads) => threads.as_slice(),
            None => &[],
        }
    }

    /// The least thread that ran a token.
    pub fn first(&self, token: &Token) -> Option<u32>
        ensures { (r : Record) → AreRunners r self.now → result ≡ first_runner r (what_of token.now) (λ t. true) }
    {
        self.of(token).first().copied()
    }

    /// The least thread behind `after` that ran a token.
    pub fn next(&self, token: &Token, after: usize) -> Option<u32>
        ensures { (r : Record) → AreRunners r self.now → result ≡ first_runner r (what_of token.now) (nat_lt after) }
    {
        let threads = self.of(token);
        let place = threads.partition_point(|thread| *thread as usize <= after);
        threads.get(place).copied()
    }

    /// Whether a thread ran a token.
    pub fn has(&self, token: &Token, thread: usize) -> bool
        ensures { (r : Record) → AreRunners r self.now → thread < thread_count r.script
            → result ≡ has_run r (what_of token.now) thread }
    {
        match self.least_from(token, thread) {
            Some(found) => found as usize == thread,
            None => false,
        }
    }

    // The least thread, from `least` on, that ran a token.
    fn least_from(&self, token: &Token, least: usize) -> Option<u32>
        ensures { (r : Record) → AreRunners r self.now → result ≡ first_runner r (what_of token.now) (nat_le least) }
    {
        let threads = self.of(token);
        let place = threads.partition_point(|thread| (*thread as usize) < least);
        threads.get(place).copied()
    }

    // Puts a thread, which is greater than those so far, under each token that it ran.
    fn add_thread(&mut self, alloc: Global, thread: u32, ran: &[Tag]) -> Result<(), NoMemory>
        ensures { OnOk result (IsAbove self.old thread → (w : Token) → threads_under self.new w
            ≡ threads_under self.old w ++ cond (is_run w ran.now) (thread ∷ []) []) }
    {
        for tag in ran {
            if let Some(token) = Token::of(&tag.what) {
                self.add(alloc, token, thread)?;
            }
        }
        Ok(())
    }

    // Puts a thread last under a token, where it isn't last already.
    fn add(&mut self, alloc: Global, token: Token, thread: u32) -> Result<(), NoMemory>
        ensures here { OnOk result (threads_under self.new token ≡ with_last thread (threads_under self.old token)) }
        ensures others { OnOk result ((w : Token) → w ≢ token → threads_under self.new w ≡ threads_under self.old w) }
    {
        let threads = self.by_token.entry(token)?.or_insert(Vec::new(alloc));
        put_last(threads, thread)
    }
}

// Puts a thread last, where it isn't last already.
fn put_last(threads: &mut Vec<u32>, thread: u32) -> Result<(), NoMemory>
    ensures { OnOk result (threads.new.items ≡ with_last thread threads.old.items) }
{
    if threads.last().copied() != Some(thread) {
        threads.push(thread)?;
    }
    Ok(())
}
