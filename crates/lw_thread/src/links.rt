//! A light thread's ends, and what it has run.
ghost use Rattle.std.specs.Prelude.{◌≡◌, ℕ, ◌+◌, ◌<◌, ◌≤◌, [], ◌∷◌, ◌++◌, length, map, reverse, All, IsTrue, IfOk, IfErr, OnOk, OnErr, MatchOption, slice_index_or, vec_capacity};
ghost use Rattle.lw_base.specs.Letters.{FitsRing};
ghost use Rattle.lw_latch.specs.RingWord.{most_sent, above_all_sent};
ghost use Rattle.lw_ring.specs.Calls.{NamedFrom};
ghost use Rattle.lw_thread.specs.Acts.{and_run};
ghost use Rattle.lw_thread.specs.Calls.{IsToRun};
ghost use Rattle.lw_thread.specs.Threads.{AreItsEnds};
ghost use Rattle.lw_thread.specs.Links.{known_tied, Fills, Nexts, Grows};
ghost use Rattle.lw_thread.specs.Refused.{AfterSend, AfterRun};

use lw_base::{NoMemory, Tag, Tagged};
use lw_ring::{RecvEnd, SendEnd, SendRefusal};
use std::alloc::Global;
use std::marker::Model;
use std::sync::Wait;

/// How many messages a poll takes at most.
pub(crate) const MOST_TAKEN: usize = 8;

/// How many messages an end can send: 2^40.
const MOST_SENT: u64 = 1_099_511_627_776;

/// The receiving end of a thread's ring, its sending ends to all rings, and what it has taken and run.
#[derive(Drop)]
pub struct Links<M: Tagged + Drop> {
    pub(crate) thread: u32,
    pub(crate) recv: RecvEnd<M>,
    pub(crate) ends: Vec<SendEnd<M>>,
    // The tags of what was run.
    pub(crate) ran: Vec<Tag>,
    // What was taken and not run, the last first.
    pub(crate) batch: Vec<M>,
    // By receiver: whether a send there came back, since that thread has ended.
    pub(crate) gone: Vec<bool>,
}

impl<M: Tagged + Drop> Model for Links<M> {
    ghost use Rattle.std.specs.Prelude.{map, reverse};
    ghost use Rattle.lw_thread.specs.Links.{Tied, AreTied};

    ghost Value = { Tied M.Letter M.Family };

    ghost view = { λ a. record {
      thread = a.thread;
      recv = a.recv;
      ends = a.ends.items;
      ran = a.ran.items;
      left = map M.letter (reverse a.batch.items);
    } };

    ghost invariant = { λ a. AreTied M.letter M.tag_of M.fits (record {
      thread = a.thread;
      recv = a.recv;
      ends = a.ends.items;
      ran = a.ran.items;
      left = map M.letter (reverse a.batch.items);
    }) a.ran a.batch a.gone.items };
}

impl<M: Tagged + Drop> Links<M> {
    // The ends of a thread that has taken nothing.
    pub(crate) fn new(
        alloc: Global,
        thread: u32,
        recv: RecvEnd<M>,
        ends: Vec<SendEnd<M>>,
    ) -> Result<Links<M>, NoMemory>
        requires ends { AreItsEnds thread recv ends.items }
        requires taken { recv.taken ≡ [] }
        ensures { IfOk result (λ l. l ≡ record { thread = thread; recv = recv; ends = ends.items; ran = []; left = [] }) }
    {
        let mut gone = Vec::with_capacity(alloc, ends.len())?;
        for _ in 0..ends.len() {
            gone.push(false)?;
        }
        Ok(Links {
            thread,
            recv,
            ends,
            ran: Vec::new(alloc),
            batch: Vec::with_capacity(alloc, MOST_TAKEN)?,
            gone,
        })
    }

    // Takes a batch, where the last one was run. The log gets room for it first, by doubling.
    pub(crate) fn fill<R: Wait>(&mut self, rt: &R) -> Result<(), NoMemory>
        requires { self.old.left ≡ [] }
        ensures ok { OnOk result (Fills M.letter M.tag_of M.fits self.old self.new) }
        ensures known { OnOk result (known_tied self.new ≡ known_tied self.old) }
        ensures same { OnErr result (self.new ≡ self.old) }
    {
        self.ran.reserve(MOST_TAKEN)?;
        self.recv.take_into(rt, MOST_TAKEN, &mut self.batch);
        self.batch.reverse();
        Ok(())
    }

    // The next message of the batch, which is noted as run.
    pub(crate) fn next(&mut self) -> Option<M>
        ensures next { MatchOption result ((self.old.left ≡ []) × (self.new ≡ self.old))
            (λ m. Nexts M.tag_of (M.letter m) self.old self.new) }
        ensures fits { MatchOption result (self.new ≡ self.old)
            (λ m. IsToRun M.letter M.tag_of M.fits (known_tied self.old) m) }
        ensures known { MatchOption result (self.new ≡ self.old)
            (λ m. known_tied self.new ≡ and_run (known_tied self.old) (M.letter m)) }
        ensures few { length self.new.ran < above_all_sent }
    {
        let _taken = self.recv.taken();
        // The tag is noted first, and so the message is moved once.
        if self.batch.is_empty() {
            return None;
        }
        let message = &self.batch[self.batch.len() - 1];
        self.ran.push_reserved(message.tag());
        Some(self.batch.take_last())
    }

    // Whether the thread of this number has ended, as far as a send has shown it.
    pub(crate) fn is_gone(&self, to: u32) -> bool
        requires { to < length self.now.ends }
        ensures { (d : _) → IsTrue result → 1 ≤ (slice_index_or self.now.ends to d).found }
    {
        self.gone[to as usize]
    }

    // How many messages more can be sent to this thread.
    pub(crate) fn room(&self, to: u32) -> u64
        requires { to < length self.now.ends }
        ensures { (d : _) → length (slice_index_or self.now.ends to d).sent + result ≡ most_sent }
    {
        MOST_SENT - self.ends[to as usize].sent()
    }

    // Marks a message and sends it.
    pub(crate) fn send<R: Wait>(
        &mut self,
        rt: &R,
        to: u32,
        message: M,
    ) -> Result<(), SendRefusal<M>>
        requires to { to < length self.old.ends }
        requires fits { FitsRing M.fits to self.old.recv.family message }
        ensures ok { OnOk result ((d : _) → Grows to
            (M.marked (M.letter message) self.old.thread (length (slice_index_or self.old.ends to d).sent) ∷ []) self.old self.new) }
        ensures refused { IfErr result (λ r. AfterSend M.letter M.marked M.fits to message self.old self.new r) }
    {
        let mut message = message;
        let end = &mut self.ends[to as usize];
        message.mark(self.thread, end.sent());
        match end.send(rt, message) {
            Err(SendRefusal::Exited(message)) => {
                self.gone[to as usize] = true;
                Err(SendRefusal::Exited(message))
            }
            Err(SendRefusal::NoMemory(message)) => Err(SendRefusal::NoMemory(message)),
            Err(SendRefusal::Spent(message)) => Err(SendRefusal::Spent(message)),
            Ok(()) => Ok(()),
        }
    }

    // Sends a run that is marked.
    pub(crate) fn send_run<R: Wait>(
        &mut self,
        rt: &R,
        to: u32,
        run: Vec<M>,
    ) -> Result<(), SendRefusal<Vec<M>>>
        requires to { to < length self.old.ends }
        requires some { 1 ≤ length run.items }
        requires room { (d : _) → length (slice_index_or self.old.ends to d).sent + length run.items ≤ most_sent }
        requires fits { All (FitsRing M.fits to self.old.recv.family) run.items }
        requires names { (d : _) → NamedFrom M.letter M.tag_of self.old.thread
            (length (slice_index_or self.old.ends to d).sent) run.items }
        ensures ok { OnOk result (Grows to (map M.letter run.items) self.old self.new) }
        ensures refused { IfErr result (λ r. AfterRun to run self.old self.new r) }
    {
        let end = &mut self.ends[to as usize];
        match end.send_run(rt, run) {
            Err(SendRefusal::Exited(run)) => {
                self.gone[to as usize] = true;
                Err(SendRefusal::Exited(run))
            }
            Err(SendRefusal::NoMemory(run)) => Err(SendRefusal::NoMemory(run)),
            Err(SendRefusal::Spent(_)) => unreachable!(),
            Ok(()) => Ok(()),
        }
    }

    // The number that the next message to this thread gets.
    pub(crate) fn next_number(&self, to: u32) -> u64
        requires { to < length self.now.ends }
        ensures { (d : _) → result ≡ length (slice_index_or self.now.ends to d).sent }
    {
        self.ends[to as usize].sent()
    }

    // An empty vector for a run of so many messages: one that a run came in, where there is one.
    pub(crate) fn vector(&mut self, alloc: Global, count: usize) -> Result<Vec<M>, NoMemory>
        ensures same { self.new ≡ self.old }
        ensures room { IfOk result (λ v. (v.items ≡ []) × (count ≤ vec_capacity v)) }
    {
        let mut run = match self.recv.spare() {
            Some(spare) => spare,
            None => Vec::new(alloc),
        };
        run.reserve(count)?;
        Ok(run)
    }
}
