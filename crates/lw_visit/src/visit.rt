//! The token of a visit: a for-each over the channels of a device.
ghost use Rattle.std.specs.Prelude.{◌≡◌, ℕ, ◌+◌, ◌<◌, ◌≤◌, [], length, map, IfOk, IfErr};
ghost use Rattle.lw_latch.specs.DeviceWord.{KnowsOpen};
ghost use Rattle.lw_device.specs.Rows.{seat_of, seat_found, seat_visiting, seat_not_visiting};
ghost use Rattle.lw_channel.specs.Channels.{with_row};
ghost use Rattle.lw_visit.specs.Tokens.{Visit, AscendBelow, thread_of, new_visit, marks_of, visit_passed};

use crate::next::{Next, onward};
use lw_base::{Mark, NoMemory};
use lw_channel::{ChannelSet, Hold};
use std::alloc::Global;
use std::marker::Model;
use thiserror::Error;

/// Why a visit did not begin.
#[derive(Clone, Copy, PartialEq, Eq, Debug, Error)]
pub enum VisitRefusal {
    /// There was no memory for the results.
    #[error("there is no memory for the results of a visit")]
    NoMemory,
    /// The device's unregistration has begun.
    #[error("the device is shut")]
    Shut,
}

impl From<NoMemory> for VisitRefusal {
    ghost use Rattle.std.specs.Prelude.{◌≡◌};
    ghost use Rattle.lw_visit.specs.declared.visit.VisitRefusal.TheVariants.{NoMemory};

    ghost from_gives = { λ _ e. e ≡ NoMemory };

    fn from(_error: NoMemory) -> VisitRefusal {
        VisitRefusal::NoMemory
    }
}

/// The token of a visit.
///
/// Contracts see who began it, for which op, on which device; how many threads there are, and to which the token goes; and
/// the marks gathered so far. A token that is complete goes to no thread: its `goes_to` is the number of threads.
#[derive(Drop)]
pub struct VisitToken {
    origin: u32,
    op: u32,
    device: u32,
    threads: u32,
    goes_to: u32,
    marks: Vec<Mark>,
}

impl Model for VisitToken {
    ghost use Rattle.std.specs.Prelude.{◌≤◌, map, vec_capacity, vec_len};
    ghost use Rattle.lw_visit.specs.Tokens.{Visit, AscendBelow, thread_of};

    ghost Value = { Visit };

    ghost view = { λ t. record {
      origin = t.origin;
      op = t.op;
      device = t.device;
      threads = t.threads;
      goes_to = t.goes_to;
      marks = t.marks.items;
    } };

    ghost invariant = { λ t.
        AscendBelow t.goes_to (map thread_of t.marks.items)
        × (vec_len t.marks ≤ t.goes_to)
        × (t.goes_to ≤ t.threads)
        × (t.threads ≤ vec_capacity t.marks) };
}

impl VisitToken {
    /// The number of the device that is visited.
    pub fn device(&self) -> u32
        ensures { result ≡ self.now.device }
    {
        self.device
    }

    /// The number of the thread that began the visit, to which the token comes back.
    pub fn origin(&self) -> u32
        ensures { result ≡ self.now.origin }
    {
        self.origin
    }

    /// The number of the op for which it began.
    pub fn op(&self) -> u32
        ensures { result ≡ self.now.op }
    {
        self.op
    }

    /// The step of the thread `here`, to which the token goes, with its own set: it adds its mark exactly where that set holds a
    /// channel of the device, with what was submitted on that. The token then goes to the next thread, or is complete exactly
    /// at the last.
    pub fn step(mut self, here: u32, set: &ChannelSet) -> Next<VisitToken>
        requires { (here ≡ self.goes_to) × (here < self.threads) }
        ensures to { (n : ℕ) (token : Visit) → result ≡ Next.To n token →
            (n ≡ here + 1)
            × (n < self.threads)
            × (token ≡ visit_passed (marks_of here self.device set.now) self) }
        ensures complete { (token : Visit) → result ≡ Next.Complete token →
            (here + 1 ≡ self.threads) × (token ≡ visit_passed (marks_of here self.device set.now) self) }
    {
        let threads = self.threads;
        let next = here + 1;
        self.mark(here, next, set);
        onward(self, next, threads)
    }

    /// The token goes past the thread `past`, which runs it no more: no mark is added. Whoever holds the token may do this.
    pub fn skip(mut self, past: u32) -> Next<VisitToken>
        requires { (past ≡ self.goes_to) × (past < self.threads) }
        ensures to { (n : ℕ) (token : Visit) → result ≡ Next.To n token →
            (n ≡ past + 1) × (n < self.threads) × (token ≡ visit_passed [] self) }
        ensures complete { (token : Visit) → result ≡ Next.Complete token →
            (past + 1 ≡ self.threads) × (token ≡ visit_passed [] self) }
    {
        let threads = self.threads;
        self.goes_to = past + 1;
        onward(self, past + 1, threads)
    }

    // Adds the thread's mark, where it holds a channel of the device.
    fn mark(&mut self, here: u32, next: u32, set: &ChannelSet)
        requires { (here ≡ self.old.goes_to) × (here < self.old.threads) × (next ≡ here + 1) }
        ensures { self.new ≡ visit_passed (marks_of here self.old.device set.now) self.old }
    {
        self.goes_to = next;
        if set.holds(self.device) {
            let submitted = set.submitted(self.device);
            self.marks.push_reserved(Mark {
                thread: here,
                submitted,
            });
        }
    }
}

/// Begins a visit of a device by the thread `origin`, with its own set, and makes its token, which goes to thread 0. The
/// device's number is below the count, the thread has no visit of the device, and there is at least one thread.
///
/// Room for all results is taken first: `NoMemory` leaves all as it was. With a token the row has the visit, and before had
/// neither found the device shut nor shut it. With `Shut` it has no visit, and keeps that it found the device shut.
pub fn start_visit(
    alloc: Global,
    set: &mut ChannelSet,
    origin: u32,
    op: u32,
    device: u32,
    threads: u32,
) -> Result<VisitToken, VisitRefusal>
    requires device { device < length set.old.row.seats }
    requires visit { (seat_of set.old.row device).view.visit ≡ 0 }
    requires threads { 1 ≤ threads }
    ensures started { IfOk result (λ token.
        (token ≡ new_visit origin op device threads)
        × (set.new ≡ with_row set.old device seat_visiting)
        × KnowsOpen (seat_of set.old.row device).view) }
    ensures no_memory { IfErr result (λ e. e ≡ VisitRefusal.NoMemory → set.new ≡ set.old) }
    ensures shut { IfErr result (λ e. e ≡ VisitRefusal.Shut → set.new ≡ with_row set.old device seat_found) }
{
    let marks = Vec::with_capacity(alloc, threads as usize)?;
    match set.begin_visit(device) {
        Hold::Held => Ok(VisitToken {
            origin,
            op,
            device,
            threads,
            goes_to: 0,
            marks,
        }),
        Hold::Shut => Err(VisitRefusal::Shut),
    }
}

/// Ends the visit of the token's device, which the set's thread has, and answers the marks: in ascending order of their threads,
/// each thread once at most. Of a token that is complete these are the marks of all threads.
pub fn finish_visit(set: &mut ChannelSet, token: VisitToken) -> Vec<Mark>
    requires device { token.device < length set.old.row.seats }
    requires visit { (seat_of set.old.row token.device).view.visit ≡ 1 }
    ensures marks { result.items ≡ token.marks }
    ensures ascending { AscendBelow token.goes_to (map thread_of result.items) }
    ensures set { set.new ≡ with_row set.old token.device seat_not_visiting }
{
    set.end_visit(token.device);
    let VisitToken { marks, .. } = token;
    marks
}
