//! The latch of a device: who holds a channel or has a visit, and that none is given once it is shut.
ghost use Rattle.std.specs.Prelude.{◌≡◌, ◌≢◌, ℕ, ◌+◌, ◌-◌, ◌<◌, ◌≤◌, true, false, length, IfOk};
ghost use Rattle.lw_latch.specs.DeviceWord.{most_seats, most_gives, idle_view, view_given, view_not_given, view_visiting, view_usable, view_found, view_begun, view_fired, view_tried, closing_word, KnowsOpen, IsAbove, IsWhole, held_count};
ghost use Rattle.lw_latch.specs.DeviceEnds.{AreNewSeats, FiresOnlyWhatItBegan, HasAllSeats, MayBeTakenIn, new_seat, both_ends};

use crate::device_view::{
    Beginning, DeviceSeats, DeviceTable, DeviceView, Giving, Holding, LearningAll, LettingGo,
    LookingAtShut, Releasing, TakingBack, TryingToFire, Unholding,
};
use crate::device_word::{FIRED, GIVEN, OPEN, SHUT};
use crate::own_line::{WORD, WORDS};
use atomic_table::Seat;
use lw_base::NoMemory;
use std::alloc::Global;
use std::marker::Model;
use std::sync::Arc;

/// What `give` found.
#[derive(Clone, Copy, PartialEq, Eq, Debug)]
pub enum Give {
    /// The latch was open. The seat holds the channel of this ordinal.
    Given { ordinal: u64 },
    /// The latch was shut. The seat holds no channel.
    Shut,
}

/// What `look` found.
#[derive(Clone, Copy, PartialEq, Eq, Debug)]
pub enum Look {
    /// The latch was open.
    Usable,
    /// The latch was shut.
    Shut,
}

/// What `hold` found.
#[derive(Clone, Copy, PartialEq, Eq, Debug)]
pub enum Hold {
    /// The latch was open. The seat has a visit.
    Held,
    /// The latch was shut. The seat has no visit.
    Shut,
}

/// What `shut` found.
#[derive(Clone, Copy, PartialEq, Eq, Debug)]
pub enum Shutting {
    /// The latch was open. This seat has shut it, and so many channels were given.
    Began { given: u64 },
    /// The latch was shut before.
    Already,
}

/// What `fire` found.
#[derive(Clone, Copy, PartialEq, Eq, Debug)]
pub enum Firing {
    /// The latch was shut and had not fired, and nothing was open. It has fired.
    Fired,
    /// The word, as `device_word` has it, was `seen`: another one.
    NotYet { seen: u64 },
}

/// What a seat that stands for all seats learns of the device.
#[derive(Clone, Copy, PartialEq, Eq, Debug)]
pub struct DeviceTotals {
    /// How many channels were given.
    pub given: u64,
    /// The number of the seat that began, 0 where none did.
    pub began_by: u32,
    /// Whether it has fired.
    pub fired: bool,
}

/// A thread's seat at the latch of a device.
#[derive(Drop)]
pub struct DeviceSeat {
    table: Arc<DeviceTable, Global>,
    seat: Seat<(), DeviceView>,
    number: u32,
    // Whether this seat or one that it took in began, which one, and how many channels had been given then.
    began: bool,
    began_by: u32,
    given: u64,
}

impl Model for DeviceSeat {
    ghost use Rattle.lw_latch.specs.DeviceEnds.{SeatEnd, IsDeviceSeat};
    ghost use Rattle.std.specs.Arc.{arc_value};

    ghost Value = { SeatEnd };

    ghost view = { λ s. record {
      latch = record { table = s.seat.table_id; seats = s.seat.me.0.all };
      number = s.number;
      began_by = s.began_by;
      view = s.seat.me.0;
    } };

    ghost invariant = { λ s. IsDeviceSeat (arc_value s.table).shared.table_id s.seat s.began s.given };
}

impl DeviceSeat {
    /// Gets a channel, unless the latch is shut. A seat has at most one, and calls this at most 2^38 times.
    ///
    /// `Given`: the seat holds the channel, and before had neither found the latch shut nor shut it. The ordinal is above all
    /// that the seat was given; where it stands for all seats, it is how many were given. `Shut`: the seat holds no channel,
    /// and keeps that it found the latch shut. What the answers to all seats come to, `learn` says.
    pub fn give(&mut self) -> Give
        requires channel { self.old.view.channel ≡ 0 }
        requires room { self.old.view.gives < most_gives }
        ensures given { (ordinal : ℕ) → result ≡ Give.Given ordinal →
            (self.new ≡ record self.old { view = view_given ordinal self.old.view })
            × KnowsOpen self.old.view
            × IsAbove ordinal self.old.view.ordinals }
        ensures all_given { (ordinal : ℕ) → result ≡ Give.Given ordinal → HasAllSeats self.old →
            ordinal ≡ length self.old.view.ordinals }
        ensures shut { result ≡ Give.Shut → self.new ≡ record self.old { view = view_not_given self.old.view } }
    {
        let before = self
            .table
            .shared
            .fetch_add::<Giving>(&mut self.seat, WORD, GIVEN + OPEN);
        if before / SHUT % 2 == 0 {
            return Give::Given {
                ordinal: before / GIVEN,
            };
        }
        // Until this second step the seat counts as open, and as given a channel; but a shut latch gives none.
        self.table
            .shared
            .fetch_sub::<TakingBack>(&mut self.seat, WORD, GIVEN + OPEN);
        Give::Shut
    }

    /// Whether the latch is shut.
    ///
    /// `Usable`: the seat before had neither found the latch shut nor shut it. `Shut`: the seat keeps that it found the latch
    /// shut.
    pub fn look(&mut self) -> Look
        ensures usable { result ≡ Look.Usable →
            (self.new ≡ record self.old { view = view_usable self.old.view })
            × KnowsOpen self.old.view }
        ensures shut { result ≡ Look.Shut →
            self.new ≡ record self.old {
              view =
                  record (view_found self.old.view) { looks = self.old.view.looks + 1 };
            } }
    {
        let found = self
            .table
            .shared
            .load::<LookingAtShut>(&mut self.seat, WORD);
        if found / SHUT % 2 == 0 {
            Look::Usable
        } else {
            Look::Shut
        }
    }

    /// Begins a visit, unless the latch is shut. A seat has at most one.
    ///
    /// `Held`: the seat has the visit, and before had neither found the latch shut nor shut it. `Shut`: the seat has no visit,
    /// and keeps that it found the latch shut.
    pub fn hold(&mut self) -> Hold
        requires { self.old.view.visit ≡ 0 }
        ensures held { result ≡ Hold.Held →
            (self.new ≡ record self.old { view = view_visiting self.old.view }) × KnowsOpen self.old.view }
        ensures shut { result ≡ Hold.Shut → self.new ≡ record self.old { view = view_found self.old.view } }
    {
        let found = self
            .table
            .shared
            .fetch_add::<Holding>(&mut self.seat, WORD, OPEN);
        if found / SHUT % 2 == 0 {
            return Hold::Held;
        }
        // Until this second step the seat counts as open, in a latch that stays shut.
        self.table
            .shared
            .fetch_sub::<LettingGo>(&mut self.seat, WORD, OPEN);
        Hold::Shut
    }

    /// Gives the seat's channel back.
    pub fn release(&mut self)
        requires { self.old.view.channel ≡ 1 }
        ensures { self.new ≡ record self.old { view = record self.old.view { channel = 0 } } }
    {
        self.table
            .shared
            .fetch_sub::<Releasing>(&mut self.seat, WORD, OPEN);
    }

    /// Ends the seat's visit.
    pub fn unhold(&mut self)
        requires { self.old.view.visit ≡ 1 }
        ensures { self.new ≡ record self.old { view = record self.old.view { visit = 0 } } }
    {
        self.table
            .shared
            .fetch_sub::<Unholding>(&mut self.seat, WORD, OPEN);
    }

    /// Shuts the latch, unless it is shut.
    ///
    /// `Began`: this seat has shut it, and keeps how many channels had been given and how often the latch had been found open.
    /// Before, it had neither found the latch shut nor shut it, by its own calls or by those of a seat that it took in. `given`
    /// is above every ordinal that it was given and no less than their number; where it stands for all seats, it is that
    /// number. `Already`: the seat keeps that it found the latch shut. That nothing is given from then on, and no seat finds
    /// the latch open, `learn` says.
    pub fn shut(&mut self) -> Shutting
        ensures began { (given : ℕ) → result ≡ Shutting.Began given →
            (opens : ℕ)
            × (self.new ≡ record self.old {
              began_by = self.old.number;
              view = view_begun given opens self.old.view;
            })
            × KnowsOpen self.old.view
            × (length self.old.view.ordinals ≤ given)
            × (self.old.view.opens ≤ opens)
            × IsAbove given self.old.view.ordinals }
        ensures all_given { (given : ℕ) → result ≡ Shutting.Began given → HasAllSeats self.old →
            given ≡ length self.old.view.ordinals }
        ensures already { result ≡ Shutting.Already → self.new ≡ record self.old { view = view_found self.old.view } }
    {
        let found = self
            .table
            .shared
            .fetch_or::<Beginning>(&mut self.seat, WORD, SHUT);
        if found / SHUT % 2 != 0 {
            return Shutting::Already;
        }
        self.began = true;
        self.began_by = self.number;
        self.given = found / GIVEN;
        Shutting::Began { given: self.given }
    }

    /// Fires, if nothing is open. Only a seat whose own `shut` answered `Began` may call it.
    ///
    /// `Fired` comes exactly where the word that was found is that of a shut latch which has not fired, with nothing open and
    /// as many given as `shut` told; the seat keeps that word, and before had not fired. `NotYet` carries the word that was
    /// found, and the seat keeps it; where the seat stands for all, it has a channel or a visit, or has fired.
    pub fn fire(&mut self) -> Firing
        requires { (1 ≤ self.old.view.begun) × (self.old.began_by ≡ self.old.number) }
        ensures fired { result ≡ Firing.Fired →
            (self.new ≡ record self.old { view = view_fired (closing_word self.old.view.count) self.old.view })
            × (self.old.view.fired ≡ 0)
            × (held_count self.old.view ≡ 0) }
        ensures not_yet { (seen : ℕ) → result ≡ Firing.NotYet seen →
            (self.new ≡ record self.old { view = view_tried seen self.old.view })
            × (seen ≢ closing_word self.old.view.count) }
        ensures all_held { (seen : ℕ) → result ≡ Firing.NotYet seen → HasAllSeats self.old →
            1 ≤ held_count self.old.view + self.old.view.fired }
    {
        let closing = SHUT + GIVEN * self.given;
        let seen = self
            .table
            .shared
            .compare_exchange::<TryingToFire>(&mut self.seat, WORD, closing, closing + FIRED);
        if seen == closing {
            Firing::Fired
        } else {
            Firing::NotYet { seen }
        }
    }

    /// Takes in a seat that has nothing open and has fired where it began. From then on this seat keeps what the other had
    /// been given, found, begun and fired. Of each of the two it is known that it fired only what it began.
    pub fn take_in(&mut self, other: DeviceSeat)
        requires latch { other.latch ≡ self.old.latch }
        requires free { MayBeTakenIn other }
        ensures both { self.new ≡ both_ends self.old other }
        ensures only_who_began { FiresOnlyWhatItBegan self.old × FiresOnlyWhatItBegan other }
    {
        self.gather(other);
    }

    /// Takes in any seat of the latch, at the end, when all seats come into one hand. Of each of the two it is known that it
    /// fired only what it began.
    pub fn gather(&mut self, other: DeviceSeat)
        requires { other.latch ≡ self.old.latch }
        ensures both { self.new ≡ both_ends self.old other }
        ensures only_who_began { FiresOnlyWhatItBegan self.old × FiresOnlyWhatItBegan other }
    {
        let DeviceSeat {
            table: _,
            seat,
            number: _,
            began,
            began_by,
            given,
        } = other;
        self.table
            .shared
            .join_seat::<DeviceSeats>(&mut self.seat, seat);
        if !self.began {
            self.began = began;
            self.began_by = began_by;
            self.given = given;
        }
    }

    /// What came of the device, of a seat that stands for all.
    ///
    /// The ordinals that all seats were given are the numbers below their count, each once. At most one seat began; where a
    /// seat found the latch shut, one did. It was told how many were given, and from then on nothing was given and no seat
    /// found the latch open. It fired at most once, where a seat began; where it has fired, nothing is open.
    pub fn learn(&mut self) -> DeviceTotals
        requires { HasAllSeats self.old }
        ensures same { self.new ≡ self.old }
        ensures given { result.given ≡ length self.old.view.ordinals }
        ensures began { result.began_by ≡ self.old.began_by }
        ensures fired { (result.fired ≡ true → self.old.view.fired ≡ 1) × (result.fired ≡ false → self.old.view.fired ≡ 0) }
        ensures whole { IsWhole self.old.view }
    {
        let word = self.table.shared.load::<LearningAll>(&mut self.seat, WORD);
        DeviceTotals {
            given: word / GIVEN,
            began_by: self.began_by,
            fired: word / FIRED % 2 == 1,
        }
    }

    // One more seat, with this number.
    fn split(&mut self, number: u32) -> Result<DeviceSeat, NoMemory>
        requires some { 2 ≤ self.old.view.seats }
        requires new { self.old.view ≡ idle_view self.old.latch.seats self.old.view.seats }
        ensures seat { IfOk result (λ s. s ≡ new_seat self.old.latch number) }
        ensures rest { IfOk result (λ s.
            self.new ≡ record self.old { view = idle_view self.old.latch.seats (self.old.view.seats - 1) }) }
    {
        let table = Arc::try_clone(&self.table)?;
        let seat = self.table.shared.split_seat::<DeviceSeats>(&mut self.seat);
        Ok(DeviceSeat {
            table,
            seat,
            number,
            began: false,
            began_by: 0,
            given: 0,
        })
    }
}

/// A new latch with 1 to 127 seats, by their numbers: it is open, and nothing was given.
pub fn device_latch(alloc: Global, seats: u32) -> Result<Vec<DeviceSeat>, NoMemory>
    requires { (1 ≤ seats) × (seats ≤ most_seats) }
    ensures { IfOk result (λ v. AreNewSeats seats v.items) }
{
    let last = seats - 1;
    let (table, seat) = DeviceTable::of_words(alloc, &[0; WORDS], &seats)?;
    let mut rest = DeviceSeat {
        table: Arc::new(alloc, table)?,
        seat,
        number: last,
        began: false,
        began_by: 0,
        given: 0,
    };
    let mut all = Vec::new(alloc);
    for number in 0..last {
        all.push(rest.split(number)?)?;
    }
    all.push(rest)?;
    Ok(all)
}
