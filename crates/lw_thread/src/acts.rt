//! What a body sees and changes in a call.
ghost use Rattle.std.specs.Prelude.{◌≡◌, ℕ, ◌+◌, ◌<◌, ◌≤◌, ◌↔◌, min, true, false, List, [], ◌∷◌, ◌++◌, length, All, IsTrue, IfOk, IfErr, IfSome, IfNone, OnOk, OnErr, MatchOption, slice_index_or};
ghost use Rattle.lw_latch.specs.RingWord.{above_all_sent};
ghost use Rattle.lw_poller.specs.Pollers.{AreKept, live_count};
ghost use Rattle.lw_poller.specs.LocalDue.{begun, IsNextActive, NoneActive, IsNextTimed, NoneDue};
ghost use Rattle.lw_poller.specs.Changes.{IsLeastFree, IsNotAdded, AddsTimed, Pauses, Resumes, Removes, IsUnknown, GivesActive, GivesTimed, with_active};
ghost use Rattle.lw_thread.specs.Acts.{IsAsked, Post, blank, no_acts};
ghost use Rattle.lw_thread.specs.Sending.{first_to, Leads, sends_of, AreSends};

use lw_base::{NoMemory, Tagged, Tick};
use lw_poller::{PollerId, PollerRefusal, PollerSet};
use std::alloc::Global;
use std::collections::VecDeque;
use std::marker::Model;
use std::mem;

/// A send that a body asked for.
#[derive(Drop)]
pub struct Asked<M> {
    /// The number of the thread that the message goes to.
    pub to: u32,
    /// The message. Its tag has 0 for its sender and its number.
    pub message: M,
}

/// What a body sees and changes in a call: its pollers, the sends that it asks for, the threads that it starts, and whether its
/// thread is to end.
///
/// It is plain data and knows no ring. A light thread hands it to its body; but anybody can make one, hand it to a body and read
/// what the body asked for.
#[derive(Drop)]
pub struct Acts<M: Tagged + Drop> {
    alloc: Global,
    threads: u32,
    ran: u64,
    pollers: PollerSet,
    asked: VecDeque<Asked<M>>,
    started: Vec<u32>,
    end: bool,
}

impl<M: Tagged + Drop> Model for Acts<M> {
    ghost use Rattle.std.specs.Prelude.{◌<◌, map, All};
    ghost use Rattle.lw_latch.specs.RingWord.{above_all_sent};
    ghost use Rattle.lw_thread.specs.Acts.{ActsEnd, AreAsked};

    ghost Value = { ActsEnd M };

    ghost view = { λ a. record {
      threads = a.threads;
      ran = a.ran;
      pollers = a.pollers;
      pending = map (λ s. record { to = s.to; what = s.message }) a.asked.items;
      started = a.started.items;
      asked_end = a.end;
    } };

    ghost invariant = { λ a.
        AreAsked M.letter M.marked a.threads (map (λ s. record { to = s.to; what = s.message }) a.asked.items)
        × All (λ n. n < a.threads) a.started.items
        × (a.ran < above_all_sent) };
}

impl<M: Tagged + Drop> Acts<M> {
    /// Nothing is asked for, and there are no pollers. There are so many threads.
    pub fn new(alloc: Global, threads: u32) -> Result<Acts<M>, NoMemory>
        ensures { IfOk result (λ a. a ≡ no_acts threads) }
    {
        Ok(Acts {
            alloc,
            threads,
            ran: 0,
            pollers: PollerSet::new(alloc)?,
            asked: VecDeque::new(alloc),
            started: Vec::new(alloc),
            end: false,
        })
    }

    /// Asks for a send to a thread, behind the sends asked for before. The tag's sender and number are set when it is made.
    pub fn send(&mut self, to: u32, message: M) -> Result<(), NoMemory>
        requires { to < self.old.threads }
        ensures asked { OnOk result (IsAsked M.letter M.marked M.fits to message self.old self.new) }
        ensures same { OnErr result (self.new ≡ self.old) }
    {
        let mut message = message;
        message.mark(0, 0);
        self.asked.push_back(Asked { to, message })?;
        Ok(())
    }

    /// Asks for the start of a thread. The poll in which that is done tells it; nothing else comes of it here.
    pub fn start(&mut self, thread: u32) -> Result<(), NoMemory>
        requires { thread < self.old.threads }
        ensures asked { OnOk result (self.new ≡ record self.old { started = self.old.started ++ thread ∷ [] }) }
        ensures same { OnErr result (self.new ≡ self.old) }
    {
        self.started.push(thread)?;
        Ok(())
    }

    /// Asks for the end of the thread: it is tried after each poll from then on.
    pub fn ask_end(&mut self)
        ensures { self.new ≡ record self.old { asked_end = true } }
    {
        self.end = true;
    }

    /// How many messages the thread had run before the present one, fewer than 2^47.
    pub fn ran(&self) -> u64
        ensures count { result ≡ self.now.ran }
        ensures few { self.now.ran < above_all_sent }
    {
        self.ran
    }

    /// How many threads there are.
    pub fn threads(&self) -> u32
        ensures { result ≡ self.now.threads }
    {
        self.threads
    }

    /// Whether the end was asked for.
    pub fn asked_end(&self) -> bool
        ensures { result ≡ self.now.asked_end }
    {
        self.end
    }

    /// Whether no poller is live. What is true of each thread's pollers can be learned by this call.
    pub fn has_no_poller(&self) -> bool
        ensures none { IsTrue result ↔ (live_count self.now.pollers ≡ 0) }
        ensures kept { AreKept self.now.pollers }
    {
        self.pollers.is_empty()
    }

    /// Takes out the first send that is still to be made, if there is one.
    pub fn next_send(&mut self) -> Option<Asked<M>>
        ensures first { MatchOption result ((self.old.pending ≡ []) × (self.new ≡ self.old))
            (λ s. Leads s.to s.message self.old self.new) }
        ensures kept { IfSome result (λ s. (s.to < self.old.threads)
            × (M.letter s.message ≡ blank M.marked (M.letter s.message))) }
    {
        self.asked.pop_front()
    }

    /// Takes out the threads that are to be started, in the order in which that was asked for.
    pub fn take_started(&mut self) -> Vec<u32>
        ensures taken { (result.items ≡ self.old.started) × (self.new ≡ record self.old { started = [] }) }
        ensures numbers { All (λ n. n < self.old.threads) result.items }
    {
        if self.started.is_empty() {
            return Vec::new(self.alloc);
        }
        mem::replace(&mut self.started, Vec::new(self.alloc))
    }

    /// One more message was run. There are fewer than 2^47.
    pub fn count_run(&mut self)
        requires { self.old.ran + 1 < above_all_sent }
        ensures { self.new ≡ record self.old { ran = self.old.ran + 1 } }
    {
        self.ran += 1;
    }
}

// The pollers' calls.
impl<M: Tagged + Drop> Acts<M> {
    /// `PollerSet::add_active` of the thread's pollers.
    pub fn add_active(&mut self) -> Result<PollerId, PollerRefusal>
        ensures number { IfOk result (λ id. IsLeastFree self.old.pollers id.0) }
        ensures added { IfOk result (λ id. self.new ≡ record self.old { pollers = with_active id.0 self.old.pollers }) }
        ensures cause { IfErr result (λ e. IsNotAdded self.old.pollers e) }
        ensures same { OnErr result (self.new ≡ self.old) }
    {
        self.pollers.add_active()
    }

    /// `PollerSet::add_timed` of the thread's pollers.
    pub fn add_timed(&mut self, now: Tick, period: Tick) -> Result<PollerId, PollerRefusal>
        requires { 1 ≤ period }
        ensures number { IfOk result (λ id. IsLeastFree self.old.pollers id.0) }
        ensures added { IfOk result (λ id. AddsTimed id.0 now period self.old.pollers self.new.pollers) }
        ensures cause { IfErr result (λ e. IsNotAdded self.old.pollers e) }
        ensures same { OnErr result (self.new ≡ self.old) }
        ensures rest { self.new ≡ record self.old { pollers = self.new.pollers } }
    {
        self.pollers.add_timed(now, period)
    }

    /// `PollerSet::pause` of the thread's pollers.
    pub fn pause(&mut self, id: PollerId) -> Result<(), PollerRefusal>
        ensures paused { OnOk result (Pauses id.0 self.old.pollers self.new.pollers) }
        ensures cause { IfErr result (λ e. IsUnknown id.0 self.old.pollers self.new.pollers e) }
        ensures rest { self.new ≡ record self.old { pollers = self.new.pollers } }
    {
        self.pollers.pause(id)
    }

    /// `PollerSet::resume` of the thread's pollers.
    pub fn resume(&mut self, id: PollerId, now: Tick) -> Result<(), PollerRefusal>
        ensures resumed { OnOk result (Resumes id.0 now self.old.pollers self.new.pollers) }
        ensures cause { IfErr result (λ e. IsUnknown id.0 self.old.pollers self.new.pollers e) }
        ensures rest { self.new ≡ record self.old { pollers = self.new.pollers } }
    {
        self.pollers.resume(id, now)
    }

    /// `PollerSet::remove` of the thread's pollers.
    pub fn remove(&mut self, id: PollerId) -> Result<(), PollerRefusal>
        ensures removed { OnOk result (Removes id.0 self.old.pollers self.new.pollers) }
        ensures cause { IfErr result (λ e. IsUnknown id.0 self.old.pollers self.new.pollers e) }
        ensures rest { self.new ≡ record self.old { pollers = self.new.pollers } }
    {
        self.pollers.remove(id)
    }

    // A poll of the pollers begins.
    pub(crate) fn begin(&mut self, now: Tick)
        ensures begun { self.new ≡ record self.old { pollers = begun now self.old.pollers } }
        ensures kept { AreKept self.new.pollers }
    {
        self.pollers.begin(now);
    }

    // The next active poller.
    pub(crate) fn next_active(&mut self) -> Option<PollerId>
        ensures given { IfSome result (λ id. (place : ℕ) × IsNextActive self.old.pollers place
            × GivesActive place id.0 self.old.pollers self.new.pollers) }
        ensures none { IfNone result (NoneActive self.old.pollers × (self.new ≡ self.old)) }
        ensures rest { self.new ≡ record self.old { pollers = self.new.pollers } }
    {
        self.pollers.next_active()
    }

    // The next timed poller.
    pub(crate) fn next_timed(&mut self) -> Option<PollerId>
        ensures given { IfSome result (λ id. (place : ℕ) × IsNextTimed self.old.pollers place
            × GivesTimed place id.0 self.old.pollers self.new.pollers) }
        ensures none { IfNone result (NoneDue self.old.pollers × (self.new ≡ self.old)) }
        ensures rest { self.new ≡ record self.old { pollers = self.new.pollers } }
    {
        self.pollers.next_timed()
    }
}

// The sends that are still to be made.
impl<M: Tagged + Drop> Acts<M> {
    // To whom the first one goes.
    pub(crate) fn first_receiver(&self) -> Option<u32>
        ensures { MatchOption result (self.now.pending ≡ [])
            (λ to. (1 ≤ first_to to self.now.pending) × (to < self.now.threads)) }
    {
        Some(self.asked.front()?.to)
    }

    // How many next to each other go to this thread, from the first one on, which does. Of several no more than so many are
    // looked at.
    pub(crate) fn neighbours(&self, to: u32, most: u64) -> usize
        requires { 1 ≤ first_to to self.now.pending }
        ensures all { result ≤ first_to to self.now.pending }
        ensures most { 2 ≤ result → result ≤ most }
    {
        if self.asked.len() < 2 {
            return 1;
        }
        for place in 0..self.asked.len() {
            if place as u64 == most {
                return place;
            }
            if !self.goes_to(place, to) {
                return place;
            }
        }
        self.asked.len()
    }

    // Whether the send at this place goes to this thread.
    fn goes_to(&self, place: usize, to: u32) -> bool
        requires { place < length self.now.pending }
        ensures { (d : _) → IsTrue result ↔ ((slice_index_or self.now.pending place d).to ≡ to) }
    {
        match self.asked.get(place) {
            Some(asked) => asked.to == to,
            None => false,
        }
    }

    // A message is to be sent before all others.
    pub(crate) fn put_first(&mut self, to: u32, message: M) -> Result<(), NoMemory>
        requires { to < self.old.threads }
        ensures first { OnOk result ((waiting : M) × (M.letter waiting ≡ M.marked (M.letter message) 0 0)
            × ((r : ℕ) (f : M.Family) → M.fits r f message → M.fits r f waiting)
            × Leads to waiting self.new self.old) }
        ensures same { OnErr result (self.new ≡ self.old) }
    {
        let mut message = message;
        message.mark(0, 0);
        self.asked.push_front(Asked { to, message })?;
        Ok(())
    }

    // Takes out all sends.
    pub(crate) fn set_aside(&mut self) -> VecDeque<Asked<M>>
        ensures sends { (sends_of result.items ≡ self.old.pending) × (self.new ≡ record self.old { pending = [] }) }
        ensures kept { AreSends M.letter M.marked self.old.threads result.items }
    {
        mem::replace(&mut self.asked, VecDeque::new(self.alloc))
    }

    // These are to be sent behind all others. They stay where there is no memory; of the others some are dropped then.
    pub(crate) fn put_behind(&mut self, rest: VecDeque<Asked<M>>) -> Result<(), NoMemory>
        requires { AreSends M.letter M.marked self.old.threads rest.items }
        ensures all { OnOk result (self.new ≡ record self.old { pending = self.old.pending ++ sends_of rest.items }) }
        ensures kept { (before : List (Post M)) × (self.new ≡ record self.old { pending = before ++ sends_of rest.items }) }
    {
        let first = mem::replace(&mut self.asked, rest);
        put_before(first, &mut self.asked)
    }
}

// Puts the first before the rest. It moves the first alone, since they are few: of many sends that come back one by one the
// rest would be moved for each. Where there is no memory, the rest stays, with the last of the first before it.
fn put_before<T: Drop>(first: VecDeque<T>, rest: &mut VecDeque<T>) -> Result<(), NoMemory>
    ensures all { OnOk result (rest.new.items ≡ first.items ++ rest.old.items) }
    ensures kept { (dropped : List T) × (put : List T) × (first.items ≡ dropped ++ put)
        × (rest.new.items ≡ put ++ rest.old.items) }
{
    let mut first = first;
    for _ in 0..first.len() {
        let Some(item) = first.pop_back() else {
            unreachable!()
        };
        rest.push_front(item)?;
    }
    Ok(())
}
