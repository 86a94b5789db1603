//! A thread's row of the registry.
ghost use Rattle.std.specs.Prelude.{◌≡◌, ◌≢◌, ℕ, ◌+◌, ◌<◌, ◌≤◌, [], ◌∷◌, ◌++◌, length, All, IfOk, IfErr};
ghost use Rattle.lw_latch.specs.DeviceWord.{most_gives, KnowsOpen, IsAbove, closing_word, held_count};
ghost use Rattle.lw_latch.specs.DeviceEnds.{FiresOnlyWhatItBegan, HasAllSeats, MayBeTakenIn};
ghost use Rattle.lw_device.specs.Rows.{latches, seat_of, with_seat, both_rows, seat_given, seat_not_given, seat_usable, seat_looked, seat_found, seat_visiting, seat_not_visiting, seat_destroyed, seat_began, seat_fired, seat_tried};

use lw_base::NoMemory;
use lw_latch::{DeviceSeat, Firing, Give, Hold, Look, Shutting};
use std::marker::Model;
use thiserror::Error;

/// Why a channel was not given.
#[derive(Clone, Copy, PartialEq, Eq, Debug, Error)]
pub enum GetRefusal {
    /// The registry has no device of this number.
    #[error("there is no such device")]
    NoDevice,
    /// The device's unregistration has begun.
    #[error("the device is shut")]
    Shut,
}

/// The device's unregistration had begun before.
#[derive(Clone, Copy, PartialEq, Eq, Debug, Error)]
#[error("the device is shut already")]
pub struct Already;

/// What a thread keeps of each device.
#[derive(Drop)]
pub struct DeviceRow {
    pub(crate) thread: u32,
    pub(crate) seats: Vec<DeviceSeat>,
}

impl Model for DeviceRow {
    ghost use Rattle.lw_device.specs.Rows.{Row};

    ghost Value = { Row };

    ghost view = { λ r. record { thread = r.thread; seats = r.seats.items } };
}

impl DeviceRow {
    /// The row's number, which is its thread's.
    pub fn thread(&self) -> u32
        ensures { result ≡ self.now.thread }
    {
        self.thread
    }

    /// How many devices there are.
    pub fn count(&self) -> usize
        ensures { result ≡ length self.now.seats }
    {
        self.seats.len()
    }

    /// Gets this thread's channel of a device, and answers its ordinal. A row has at most one of each device, and calls this
    /// at most 2^38 times for each.
    ///
    /// With an ordinal the row holds the channel, and before had neither found the device shut nor shut it, by its own calls
    /// or by those of a row that it took in. The ordinal is above all that the row was given; where the row has taken in all
    /// others, it is how many were given. It answers `NoDevice` exactly where the device's number isn't below the count. With
    /// `Shut` the row holds no channel, and keeps that it found the device shut. What the answers to all rows come to,
    /// `settle_devices` says.
    pub fn get(&mut self, device: u32) -> Result<u64, GetRefusal>
        requires channel { device < length self.old.seats → (seat_of self.old device).view.channel ≡ 0 }
        requires room { device < length self.old.seats → (seat_of self.old device).view.gives < most_gives }
        ensures given { IfOk result (λ ordinal.
            (self.new ≡ with_seat self.old device (seat_given ordinal))
            × (device < length self.old.seats)
            × KnowsOpen (seat_of self.old device).view
            × IsAbove ordinal (seat_of self.old device).view.ordinals) }
        ensures all_given { IfOk result (λ ordinal. HasAllSeats (seat_of self.old device) →
            ordinal ≡ length (seat_of self.old device).view.ordinals) }
        ensures no_device { IfErr result (λ e. e ≡ GetRefusal.NoDevice →
            (self.new ≡ self.old) × (length self.old.seats ≤ device)) }
        ensures shut { IfErr result (λ e. e ≡ GetRefusal.Shut →
            (self.new ≡ with_seat self.old device seat_not_given) × (device < length self.old.seats)) }
    {
        if device as usize >= self.seats.len() {
            return Err(GetRefusal::NoDevice);
        }
        match self.seats[device as usize].give() {
            Give::Given { ordinal } => Ok(ordinal),
            Give::Shut => Err(GetRefusal::Shut),
        }
    }

    /// Whether a device is shut.
    ///
    /// With `Usable` the row before had neither found the device shut nor shut it, by its own calls or by those of a row that
    /// it took in. With `Shut` it keeps that it found the device shut.
    pub fn look(&mut self, device: u32) -> Look
        requires { device < length self.old.seats }
        ensures usable { result ≡ Look.Usable →
            (self.new ≡ with_seat self.old device seat_usable) × KnowsOpen (seat_of self.old device).view }
        ensures shut { result ≡ Look.Shut → self.new ≡ with_seat self.old device (λ e. seat_found (seat_looked e)) }
    {
        self.seats[device as usize].look()
    }

    /// Gives this thread's channel of a device back.
    pub fn destroy(&mut self, device: u32)
        requires device { device < length self.old.seats }
        requires channel { (seat_of self.old device).view.channel ≡ 1 }
        ensures { self.new ≡ with_seat self.old device seat_destroyed }
    {
        self.seats[device as usize].release();
    }

    /// Begins this thread's visit of a device, unless the device is shut.
    ///
    /// With `Held` the row has the visit, and before had neither found the device shut nor shut it, by its own calls or by
    /// those of a row that it took in. With `Shut` it has no visit, and keeps that it found the device shut.
    pub fn begin_visit(&mut self, device: u32) -> Hold
        requires device { device < length self.old.seats }
        requires visit { (seat_of self.old device).view.visit ≡ 0 }
        ensures held { result ≡ Hold.Held →
            (self.new ≡ with_seat self.old device seat_visiting) × KnowsOpen (seat_of self.old device).view }
        ensures shut { result ≡ Hold.Shut → self.new ≡ with_seat self.old device seat_found }
    {
        self.seats[device as usize].hold()
    }

    /// Ends this thread's visit of a device.
    pub fn end_visit(&mut self, device: u32)
        requires device { device < length self.old.seats }
        requires visit { (seat_of self.old device).view.visit ≡ 1 }
        ensures { self.new ≡ with_seat self.old device seat_not_visiting }
    {
        self.seats[device as usize].unhold();
    }

    /// Begins the unregistration of a device, unless it has begun, and answers how many channels were given.
    ///
    /// With a count the row began, and keeps its own number, the count, and how often the device had been found open. Before,
    /// it had neither found the device shut nor shut it, by its own calls or by those of a row that it took in: a row that has
    /// taken in all others knows that none of them had found the device shut. The count is above every ordinal that the row
    /// was given and no less than their number; where the row has taken in all others, it is that number. With `Already` the
    /// row keeps that it found the device shut. That nothing is given from then on, and no row finds the device open,
    /// `settle_devices` says.
    pub fn unregister(&mut self, device: u32) -> Result<u64, Already>
        requires { device < length self.old.seats }
        ensures began { IfOk result (λ given.
            (opens : ℕ)
            × (self.new ≡ with_seat self.old device (seat_began given opens))
            × KnowsOpen (seat_of self.old device).view
            × (length (seat_of self.old device).view.ordinals ≤ given)
            × ((seat_of self.old device).view.opens ≤ opens)
            × IsAbove given (seat_of self.old device).view.ordinals) }
        ensures all_given { IfOk result (λ given. HasAllSeats (seat_of self.old device) →
            given ≡ length (seat_of self.old device).view.ordinals) }
        ensures already { IfErr result (λ _. self.new ≡ with_seat self.old device seat_found) }
    {
        given_where_begun(self.seats[device as usize].shut())
    }

    /// Makes the device's callback due, if no row holds a channel of it or has a visit. Only the row whose own `unregister`
    /// began may call it.
    ///
    /// `Fired` comes exactly where the word that was found is that of a device which is shut and has not fired, with nothing
    /// open and as many given as `unregister` told; the row keeps that word, and before had not fired. `NotYet` carries the
    /// word that was found, and the row keeps it; where the row has taken in all others, it has a channel or a visit of the
    /// device, or has fired.
    pub fn callback_due(&mut self, device: u32) -> Firing
        requires device { device < length self.old.seats }
        requires began { (1 ≤ (seat_of self.old device).view.begun)
            × ((seat_of self.old device).began_by ≡ (seat_of self.old device).number) }
        ensures fired { result ≡ Firing.Fired →
            (self.new ≡ with_seat self.old device seat_fired)
            × ((seat_of self.old device).view.fired ≡ 0)
            × (held_count (seat_of self.old device).view ≡ 0) }
        ensures not_yet { (seen : ℕ) → result ≡ Firing.NotYet seen →
            (self.new ≡ with_seat self.old device (seat_tried seen))
            × (seen ≢ closing_word (seat_of self.old device).view.count) }
        ensures all_held { (seen : ℕ) → result ≡ Firing.NotYet seen → HasAllSeats (seat_of self.old device) →
            1 ≤ held_count (seat_of self.old device).view + (seat_of self.old device).view.fired }
    {
        self.seats[device as usize].fire()
    }

    /// Takes in a row that holds no channel, has no visit and has fired each device that it began. From then on this row
    /// keeps what the other had been given, found, begun and fired. Of each of the two it is known that it fired only what
    /// it began.
    pub fn take_in(&mut self, other: DeviceRow)
        requires registry { latches other ≡ latches self.old }
        requires free { All MayBeTakenIn other.seats }
        ensures both { self.new ≡ both_rows self.old other }
        ensures only_who_began { All FiresOnlyWhatItBegan self.old.seats × All FiresOnlyWhatItBegan other.seats }
    {
        self.gather(other);
    }

    // Takes in any row of the registry, at the end.
    pub(crate) fn gather(&mut self, other: DeviceRow)
        requires { latches other ≡ latches self.old }
        ensures both { self.new ≡ both_rows self.old other }
        ensures only_who_began { All FiresOnlyWhatItBegan self.old.seats × All FiresOnlyWhatItBegan other.seats }
    {
        let DeviceRow { thread: _, seats } = other;
        let mut device = 0;
        for seat in seats {
            self.seats[device].gather(seat);
            device += 1;
        }
    }

    // One more device, whose seat this is.
    pub(crate) fn add(&mut self, seat: DeviceSeat) -> Result<(), NoMemory>
        ensures { IfOk result (λ _. self.new ≡ record self.old { seats = self.old.seats ++ seat ∷ [] }) }
    {
        self.seats.push(seat)?;
        Ok(())
    }
}

// What `unregister` answers where the latch answered this.
fn given_where_begun(found: Shutting) -> Result<u64, Already>
    ensures began { IfOk result (λ given. found ≡ Shutting.Began given) }
    ensures already { IfErr result (λ _. found ≡ Shutting.Already) }
{
    match found {
        Shutting::Began { given } => Ok(given),
        Shutting::Already => Err(Already),
    }
}
