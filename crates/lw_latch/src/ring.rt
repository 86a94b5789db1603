//! The latch of a ring: any number of senders up to 127, and one receiver that closes it.
ghost use Rattle.std.specs.Prelude.{◌≡◌, ◌≢◌, ℕ, ◌+◌, ◌-◌, ◌*◌, ◌<◌, ◌≤◌, length, All, IfOk};
ghost use Rattle.lw_latch.specs.RingWord.{most_senders, most_sent, above_all_sent, closed_unit, finished_unit, first_view, sender_view, joined};
ghost use Rattle.lw_latch.specs.RingEnds.{IsSender, new_sender};

use crate::own_line::{WORD, WORDS};
use crate::ring_view::{
    Entering, Finishing, Leaving, Looking, RingTable, RingView, Seats, Shutting,
};
use atomic_table::Seat;
use lw_base::NoMemory;
use std::alloc::Global;
use std::marker::Model;
use std::sync::Arc;

/// What the closed bit adds to the word. Below it the word counts the senders inside.
const CLOSED: u64 = 65_536;

/// What one finished message adds, in the bits above the closed bit.
const FINISHED: u64 = 131_072;

/// What `enter` found.
#[derive(Clone, Copy, PartialEq, Eq, Debug)]
pub enum Enter {
    /// The latch was not closed, and this sender is inside.
    Inside,
    /// The latch was closed, and this sender is outside.
    Closed,
}

/// What `close` found.
#[derive(Clone, Copy, PartialEq, Eq, Debug)]
pub enum Closing {
    /// The word was that of nobody inside and as many finished messages as were taken. The latch is closed.
    Closed,
    /// The word was `seen`, another one: somebody was inside, or not as many messages were finished.
    NotYet { seen: u64 },
}

/// A sender's seat.
#[derive(Drop)]
pub struct LatchSend {
    table: Arc<RingTable, Global>,
    seat: Seat<(), RingView>,
}

impl Model for LatchSend {
    ghost use Rattle.lw_latch.specs.RingEnds.{RingEnd, IsSender, IsSeatOf};
    ghost use Rattle.std.specs.Arc.{arc_value};

    ghost Value = { RingEnd };

    ghost view = { λ s. record { latch = s.seat.table_id; view = s.seat.me.0 } };

    ghost invariant = { λ s. IsSeatOf IsSender (arc_value s.table).shared.table_id s.seat };
}

/// The receiver's seat.
#[derive(Drop)]
pub struct LatchRecv {
    table: Arc<RingTable, Global>,
    seat: Seat<(), RingView>,
}

impl Model for LatchRecv {
    ghost use Rattle.lw_latch.specs.RingEnds.{RingEnd, IsReceiver, IsSeatOf};
    ghost use Rattle.std.specs.Arc.{arc_value};

    ghost Value = { RingEnd };

    ghost view = { λ s. record { latch = s.seat.table_id; view = s.seat.me.0 } };

    ghost invariant = { λ s. IsSeatOf IsReceiver (arc_value s.table).shared.table_id s.seat };
}

impl LatchSend {
    /// Gets inside, in one step, unless the latch is closed.
    ///
    /// A sender that finds it closed takes its count back in a second step. Between the two it counts as inside, but
    /// a closed latch stays closed. `Closed` comes only where this call's own step found the closed bit.
    pub fn enter(&mut self) -> Enter
        requires { self.old.view.inside ≡ 0 }
        ensures inside { result ≡ Enter.Inside →
            (self.new ≡ record self.old { view = record self.old.view { inside = 1 } }) × (self.old.view.found ≡ 0) }
        ensures closed { result ≡ Enter.Closed →
            self.new ≡ record self.old { view = record self.old.view { found = self.old.view.found + 1 } } }
    {
        let found = self
            .table
            .shared
            .fetch_add::<Entering>(&mut self.seat, WORD, 1);
        if found / CLOSED % 2 == 0 {
            return Enter::Inside;
        }
        self.table
            .shared
            .fetch_sub::<Leaving>(&mut self.seat, WORD, 1);
        Enter::Closed
    }

    /// Gets out with `count` more messages finished, in one step: at least one, and with those before at most 2^40.
    pub fn finish(&mut self, count: u64)
        requires inside { self.old.view.inside ≡ 1 }
        requires some { 1 ≤ count }
        requires room { self.old.view.finished + count ≤ most_sent }
        ensures { self.new ≡ record self.old {
          view =
              record self.old.view { inside = 0; finished = self.old.view.finished + count };
        } }
    {
        self.table
            .shared
            .fetch_add::<Finishing>(&mut self.seat, WORD, count * FINISHED - 1);
    }

    /// Gets out with nothing finished, in one step.
    pub fn cancel(&mut self)
        requires { self.old.view.inside ≡ 1 }
        ensures { self.new ≡ record self.old { view = record self.old.view { inside = 0 } } }
    {
        self.table
            .shared
            .fetch_sub::<Leaving>(&mut self.seat, WORD, 1);
    }
}

impl LatchRecv {
    /// Closes the latch, in one step, if nobody is inside and `taken` messages are finished. It is not closed before, and
    /// `taken` is less than 2^47.
    ///
    /// `NotYet` comes only where the word was another one, which it carries.
    pub fn close(&mut self, taken: u64) -> Closing
        requires not_closed { self.old.view.closed ≡ 0 }
        requires taken { taken < above_all_sent }
        ensures closed { result ≡ Closing.Closed →
            self.new ≡ record self.old { view = record self.old.view { closed = 1; count = taken } } }
        ensures not_yet { (seen : ℕ) → result ≡ Closing.NotYet seen →
            (self.new ≡ record self.old {
              view =
                  record self.old.view { tries = self.old.view.tries + 1; seen = seen };
            })
            × (seen ≢ taken * finished_unit) }
    {
        let all_taken = taken * FINISHED;
        let seen = self
            .table
            .shared
            .compare_exchange::<Shutting>(&mut self.seat, WORD, all_taken, all_taken + CLOSED);
        if seen == all_taken {
            Closing::Closed
        } else {
            Closing::NotYet { seen }
        }
    }

    /// Takes a sender's seat in. From then on this seat knows what the sender's knew.
    pub fn take_in(&mut self, other: LatchSend)
        requires latch { other.latch ≡ self.old.latch }
        requires outside { other.view.inside ≡ 0 }
        ensures joined { self.new ≡ record self.old { view = joined self.old.view other.view } }
        ensures sender { IsSender other.view }
    {
        let LatchSend { table: _, seat } = other;
        self.table.shared.join_seat::<Seats>(&mut self.seat, seat);
    }

    /// The word, which with all senders taken in is this seat's own. It is one load.
    ///
    /// Where the latch is closed, what all senders finished is what it was closed at. Where one of them found it
    /// closed, it is.
    pub fn learn(&mut self) -> u64
        requires { self.old.view.parts ≡ most_senders }
        ensures same { self.new ≡ self.old }
        ensures word { result ≡ closed_unit * self.old.view.closed + finished_unit * self.old.view.finished }
        ensures settled { 1 ≤ self.old.view.closed → self.old.view.finished ≡ self.old.view.count }
        ensures found { 1 ≤ self.old.view.found → self.old.view.closed ≡ 1 }
    {
        self.table.shared.load::<Looking>(&mut self.seat, WORD)
    }

    // One more sender's seat.
    fn split(&mut self) -> Result<LatchSend, NoMemory>
        requires { (1 ≤ self.old.view.parts) × (self.old.view.finished ≡ 0) }
        ensures sender { IfOk result (λ s. s ≡ new_sender self.old.latch) }
        ensures rest { IfOk result (λ s.
            self.new ≡ record self.old { view = record self.old.view { parts = self.old.view.parts - 1 } }) }
    {
        let table = Arc::try_clone(&self.table)?;
        let seat = self.table.shared.split_seat::<Seats>(&mut self.seat);
        Ok(LatchSend { table, seat })
    }
}

/// A new latch for 1 to 127 senders, not closed and with nobody inside: the receiver's end and the senders'. Without memory
/// there is none.
pub fn ring_latch(alloc: Global, senders: u32) -> Result<(LatchRecv, Vec<LatchSend>), NoMemory>
    requires { (1 ≤ senders) × (senders ≤ most_senders) }
    ensures recv { IfOk result (λ r. r.0.view ≡ record first_view { parts = most_senders - senders }) }
    ensures count { IfOk result (λ r. length r.1.items ≡ senders) }
    ensures ends { IfOk result (λ r. All (λ s. s ≡ new_sender r.0.latch) r.1.items) }
{
    let (table, seat) = RingTable::of_words(alloc, &[0; WORDS], &())?;
    let mut recv = LatchRecv {
        table: Arc::new(alloc, table)?,
        seat,
    };
    let mut ends = Vec::new(alloc);
    for _ in 0..senders {
        ends.push(recv.split()?)?;
    }
    Ok((recv, ends))
}
