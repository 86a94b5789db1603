//! A thread's channels of all devices.
ghost use Rattle.std.specs.Prelude.{◌≡◌, ◌≢◌, ℕ, ◌+◌, ◌^◌, ◌<◌, ◌≤◌, ◌↔◌, true, false, Some, None, length, All, IfOk, IfErr, IsTrue};
ghost use Rattle.lw_latch.specs.DeviceWord.{most_gives, KnowsOpen, IsAbove, closing_word, held_count};
ghost use Rattle.lw_latch.specs.DeviceEnds.{FiresOnlyWhatItBegan, HasAllSeats};
ghost use Rattle.lw_device.specs.Rows.{latches, seat_of, seat_given, seat_not_given, seat_usable, seat_looked, seat_found, seat_visiting, seat_not_visiting, seat_destroyed, seat_began, seat_fired, seat_tried};
ghost use Rattle.lw_channel.specs.Channels.{channel_of, holds, submitted_on, IsEmpty, destroys, channel_made, channel_shared, channel_refused, channel_counted, channel_deferred, channel_given_back, channel_kept, channel_destroyed, channel_submitted, with_channel, with_row, with_both, seat_refused, new_set, both_sets};

use crate::channel::{After, Channel, NoChannel, Put};
use lw_base::NoMemory;
use lw_device::{Already, DeviceRow, Firing, GetRefusal, Hold, Look};
use std::alloc::Global;
use std::marker::Model;

/// What a get gave.
#[derive(Clone, Copy, PartialEq, Eq, Debug)]
pub struct Got {
    /// The ordinal of the thread's channel. Once the registry is settled, so many were given before it, over all threads.
    pub ordinal: u64,
    /// Whether this get made the channel. Else it stood, and has one reference more.
    pub made: bool,
}

/// A thread's channels: its row of the registry, and of each device the channel's ordinal where one stands, its references,
/// the messages behind a last put that are pending, and the requests submitted on it.
///
/// A device that isn't there has none of these.
#[derive(Drop)]
pub struct ChannelSet {
    row: DeviceRow,
    channels: Vec<Channel>,
}

impl Model for ChannelSet {
    ghost use Rattle.lw_channel.specs.Channels.{Channels, AreAgreed};

    ghost Value = { Channels };

    ghost view = { λ s. record { row = s.row; channels = s.channels.items } };

    ghost invariant = { λ s. AreAgreed s.row.seats s.channels.items };
}

impl ChannelSet {
    /// The set of a thread whose row holds no channel and was never asked for one. No channel stands. Without memory the row is
    /// dropped.
    pub fn new(alloc: Global, row: DeviceRow) -> Result<ChannelSet, NoMemory>
        requires channels { All (λ e. e.view.channel ≡ 0) row.seats }
        requires gets { All (λ e. e.view.gives ≡ 0) row.seats }
        ensures { IfOk result (λ set. set ≡ new_set row) }
    {
        let count = row.count();
        let mut channels = Vec::new(alloc);
        for _ in 0..count {
            channels.push(Channel::new())?;
        }
        Ok(ChannelSet { row, channels })
    }

    /// Gets the thread's channel of a device, and counts one reference more. A device can be asked for 2^38 times.
    ///
    /// It makes the channel exactly where none stood; the ordinal is then above all that the row was given (where the row has
    /// taken in all others, it is how many were given), and nothing was submitted on the channel yet. Else the ordinal is that
    /// of the channel that stands. With both the row before had neither found the device shut nor shut it. With `Shut`, which
    /// comes also where the channel stands, the row keeps that it found the device shut, and the channel, its references and
    /// what was submitted on it stay as they were. `NoDevice` comes exactly where the device's number isn't below the count.
    /// Whatever the answer, something is kept of each device of the row.
    pub fn get(&mut self, device: u32) -> Result<Got, GetRefusal>
        requires { (channel_of self.old device).gets < most_gives }
        ensures made { IfOk result (λ got. got.made ≡ true →
            ((channel_of self.old device).ordinal ≡ None)
            × (self.new ≡ with_both self.old device (channel_made got.ordinal) (seat_given got.ordinal))
            × IsAbove got.ordinal (seat_of self.old.row device).view.ordinals) }
        ensures all_given { IfOk result (λ got. got.made ≡ true → HasAllSeats (seat_of self.old.row device) →
            got.ordinal ≡ length (seat_of self.old.row device).view.ordinals) }
        ensures shared { IfOk result (λ got. got.made ≡ false →
            ((channel_of self.old device).ordinal ≡ Some got.ordinal)
            × (self.new ≡ with_both self.old device channel_shared seat_usable)) }
        ensures found_open { IfOk result (λ _.
            (device < length self.old.row.seats) × KnowsOpen (seat_of self.old.row device).view) }
        ensures each_device { length self.old.channels ≡ length self.old.row.seats }
        ensures no_device { IfErr result (λ e. e ≡ GetRefusal.NoDevice →
            (self.new ≡ self.old) × (length self.old.row.seats ≤ device)) }
        ensures shut { IfErr result (λ e. e ≡ GetRefusal.Shut →
            (self.new ≡ with_both self.old device channel_refused (seat_refused (channel_of self.old device).ordinal))
            × (device < length self.old.row.seats)) }
    {
        match self.ordinal(device) {
            Some(ordinal) => self.get_again(device, ordinal),
            None => self.get_first(device),
        }
    }

    // Where no channel stands, the row is asked for one.
    fn get_first(&mut self, device: u32) -> Result<Got, GetRefusal>
        requires none { (channel_of self.old device).ordinal ≡ None }
        requires room { (channel_of self.old device).gets < most_gives }
        ensures given { IfOk result (λ got.
            (got.made ≡ true)
            × (self.new ≡ with_both self.old device (channel_made got.ordinal) (seat_given got.ordinal))
            × (device < length self.old.row.seats)
            × KnowsOpen (seat_of self.old.row device).view
            × IsAbove got.ordinal (seat_of self.old.row device).view.ordinals) }
        ensures all_given { IfOk result (λ got. HasAllSeats (seat_of self.old.row device) →
            got.ordinal ≡ length (seat_of self.old.row device).view.ordinals) }
        ensures no_device { IfErr result (λ e. e ≡ GetRefusal.NoDevice →
            (self.new ≡ self.old) × (length self.old.row.seats ≤ device)) }
        ensures shut { IfErr result (λ e. e ≡ GetRefusal.Shut →
            (self.new ≡ with_both self.old device channel_refused seat_not_given)
            × (device < length self.old.row.seats)) }
    {
        match self.row.get(device) {
            Ok(ordinal) => {
                self.channels[device as usize].make(ordinal);
                Ok(Got {
                    ordinal,
                    made: true,
                })
            }
            Err(GetRefusal::NoDevice) => Err(GetRefusal::NoDevice),
            Err(GetRefusal::Shut) => {
                self.channels[device as usize].refuse();
                Err(GetRefusal::Shut)
            }
        }
    }

    // Where the channel stands, the row only looks whether the device is shut.
    fn get_again(&mut self, device: u32, ordinal: u64) -> Result<Got, GetRefusal>
        requires stands { (channel_of self.old device).ordinal ≡ Some ordinal }
        requires room { (channel_of self.old device).gets < most_gives }
        ensures shared { IfOk result (λ got.
            (got ≡ record { ordinal = ordinal; made = false })
            × (self.new ≡ with_both self.old device channel_shared seat_usable)
            × (device < length self.old.row.seats)
            × KnowsOpen (seat_of self.old.row device).view) }
        ensures shut { IfErr result (λ e.
            (e ≡ GetRefusal.Shut)
            × (self.new ≡ with_both self.old device channel_refused (λ e. seat_found (seat_looked e)))
            × (device < length self.old.row.seats)) }
    {
        match self.row.look(device) {
            Look::Usable => {
                self.channels[device as usize].share();
                Ok(Got {
                    ordinal,
                    made: false,
                })
            }
            Look::Shut => {
                self.channels[device as usize].refuse();
                Err(GetRefusal::Shut)
            }
        }
    }

    /// Gives one reference back. Once none is left, the caller sends its own thread one message, behind which it calls
    /// `put_message`.
    ///
    /// `NoChannel` comes exactly where there is no reference, and changes nothing.
    pub fn put(&mut self, device: u32) -> Result<Put, NoChannel>
        ensures counted { IfOk result (λ put. put ≡ Put.Counted →
            (2 ≤ (channel_of self.old device).references) × (self.new ≡ with_channel self.old device channel_counted)) }
        ensures deferred { IfOk result (λ put. put ≡ Put.Deferred →
            ((channel_of self.old device).references ≡ 1) × (self.new ≡ with_channel self.old device channel_deferred)) }
        ensures no_channel { IfErr result (λ _.
            ((channel_of self.old device).references ≡ 0) × (self.new ≡ self.old)) }
    {
        if device as usize >= self.channels.len() {
            return Err(NoChannel);
        }
        self.channels[device as usize].put()
    }

    /// Gives all references back at once, as one last put.
    ///
    /// `NoChannel` comes exactly where there is no reference, and changes nothing.
    pub fn put_all(&mut self, device: u32) -> Result<Put, NoChannel>
        ensures deferred { IfOk result (λ put.
            (put ≡ Put.Deferred)
            × (1 ≤ (channel_of self.old device).references)
            × (self.new ≡ with_channel self.old device channel_given_back)) }
        ensures no_channel { IfErr result (λ _.
            ((channel_of self.old device).references ≡ 0) × (self.new ≡ self.old)) }
    {
        if device as usize >= self.channels.len() {
            return Err(NoChannel);
        }
        self.channels[device as usize].put_all()
    }

    /// Runs the message behind a last put. One of that device has to be pending.
    ///
    /// The channel is destroyed, and the row gives it back, exactly where no reference is left, as by a get in between, and
    /// no other such message is pending.
    pub fn put_message(&mut self, device: u32) -> After
        requires { 1 ≤ (channel_of self.old device).pending }
        ensures destroyed { result ≡ After.Destroyed →
            (destroys (channel_of self.old device) ≡ true)
            × (self.new ≡ with_both self.old device channel_destroyed seat_destroyed) }
        ensures kept { result ≡ After.Kept →
            (destroys (channel_of self.old device) ≡ false)
            × (self.new ≡ with_channel self.old device channel_kept) }
    {
        match self.channels[device as usize].message() {
            After::Destroyed => {
                self.row.destroy(device);
                After::Destroyed
            }
            After::Kept => After::Kept,
        }
    }

    // The ordinal of the channel of a device, where one stands.
    fn ordinal(&self, device: u32) -> Option<u64>
        ensures ordinal { result ≡ (channel_of self.now device).ordinal }
        ensures each_device { length self.now.channels ≡ length self.now.row.seats }
    {
        match self.channels.get(device as usize) {
            Some(channel) => channel.ordinal,
            None => None,
        }
    }

    /// Whether a channel of the device stands. It does exactly where the row holds one, and exactly as long as a reference is
    /// left or a message behind a last put is pending.
    pub fn holds(&self, device: u32) -> bool
        ensures set { result ≡ holds self.now device }
        ensures stands { (result ≡ true →
            1 ≤ (channel_of self.now device).references + (channel_of self.now device).pending)
            × (result ≡ false →
            (channel_of self.now device).references + (channel_of self.now device).pending ≡ 0) }
        ensures row { device < length self.now.row.seats →
            (result ≡ true → (seat_of self.now.row device).view.channel ≡ 1)
            × (result ≡ false → (seat_of self.now.row device).view.channel ≡ 0) }
    {
        match self.channels.get(device as usize) {
            Some(channel) => channel.ordinal.is_some(),
            None => false,
        }
    }

    /// How many references to the channel of a device there are. Where there is one, the channel stands.
    pub fn count(&self, device: u32) -> u64
        ensures references { result ≡ (channel_of self.now device).references }
        ensures stands { 1 ≤ result → holds self.now device ≡ true }
    {
        match self.channels.get(device as usize) {
            Some(channel) => channel.references,
            None => 0,
        }
    }

    /// How many requests were submitted on the channel of a device since it was made, 0 where none stands. Where there is a
    /// reference, it is what `note_submit` counts.
    pub fn submitted(&self, device: u32) -> u64
        ensures submitted { result ≡ submitted_on self.now device }
        ensures counted { 1 ≤ (channel_of self.now device).references →
            result ≡ (channel_of self.now device).submitted }
    {
        match self.channels.get(device as usize) {
            Some(channel) if channel.ordinal.is_some() => channel.submitted,
            _ => 0,
        }
    }

    /// Counts a request on the channel of a device. There is a reference to it, and fewer than 2^40 were counted since it was
    /// made.
    pub fn note_submit(&mut self, device: u32)
        requires reference { 1 ≤ (channel_of self.old device).references }
        requires room { (channel_of self.old device).submitted < 2 ^ 40 }
        ensures counted { self.new ≡ with_channel self.old device channel_submitted }
        ensures stands { holds self.old device ≡ true }
    {
        self.channels[device as usize].submit();
    }

    /// Whether no channel of any device stands. Then the row holds none, no reference is left, and no message behind a last
    /// put is pending.
    pub fn is_empty(&self) -> bool
        ensures set { IsTrue result ↔ IsEmpty self.now }
        ensures row { result ≡ true → All (λ e. e.view.channel ≡ 0) self.now.row.seats }
        ensures rest { result ≡ true → All (λ k. k.references + k.pending ≡ 0) self.now.channels }
    {
        self.channels
            .iter()
            .all(|channel| channel.ordinal.is_none())
    }

    /// Begins the unregistration of a device, unless it has begun, and answers how many channels were given. It is the row's
    /// call, with what is said there. The device's number is below the count.
    ///
    /// With a count the row began, and before had neither found the device shut nor shut it, by its own calls or by those of a
    /// row that it took in. The count is above every ordinal that the row was given and no less than their number; where the
    /// row has taken in all others, it is that number. With `Already` the row keeps that it found the device shut.
    pub fn unregister(&mut self, device: u32) -> Result<u64, Already>
        requires { device < length self.old.row.seats }
        ensures began { IfOk result (λ given.
            (opens : ℕ)
            × (self.new ≡ with_row self.old device (seat_began given opens))
            × KnowsOpen (seat_of self.old.row device).view
            × (length (seat_of self.old.row device).view.ordinals ≤ given)
            × ((seat_of self.old.row device).view.opens ≤ opens)
            × IsAbove given (seat_of self.old.row device).view.ordinals) }
        ensures all_given { IfOk result (λ given. HasAllSeats (seat_of self.old.row device) →
            given ≡ length (seat_of self.old.row device).view.ordinals) }
        ensures already { IfErr result (λ _. self.new ≡ with_row self.old device seat_found) }
    {
        self.row.unregister(device)
    }

    /// Makes the device's callback due, if nobody holds a channel of it or has a visit. The device's number is below the count,
    /// and only the set whose own `unregister` began may call it.
    ///
    /// `Fired` comes exactly where the word that was found is that of a device which is shut and has not fired, with nothing
    /// open and as many given as `unregister` told; the row before had not fired. `NotYet` carries the word that was found,
    /// and the row keeps it; where the row has taken in all others, it has a channel or a visit of the device, or has fired.
    pub fn callback_due(&mut self, device: u32) -> Firing
        requires device { device < length self.old.row.seats }
        requires began { (1 ≤ (seat_of self.old.row device).view.begun)
            × ((seat_of self.old.row device).began_by ≡ (seat_of self.old.row device).number) }
        ensures fired { result ≡ Firing.Fired →
            (self.new ≡ with_row self.old device seat_fired)
            × ((seat_of self.old.row device).view.fired ≡ 0)
            × (held_count (seat_of self.old.row device).view ≡ 0) }
        ensures not_yet { (seen : ℕ) → result ≡ Firing.NotYet seen →
            (self.new ≡ with_row self.old device (seat_tried seen))
            × (seen ≢ closing_word (seat_of self.old.row device).view.count) }
        ensures all_held { (seen : ℕ) → result ≡ Firing.NotYet seen → HasAllSeats (seat_of self.old.row device) →
            1 ≤ held_count (seat_of self.old.row device).view + (seat_of self.old.row device).view.fired }
    {
        self.row.callback_due(device)
    }

    /// Begins this thread's visit of a device, unless the device is shut. The device's number is below the count. A thread has at
    /// most one visit of a device.
    ///
    /// With `Held` the row has the visit, and before had neither found the device shut nor shut it, by its own calls or by
    /// those of a row that it took in. With `Shut` it has no visit, and keeps that it found the device shut.
    pub fn begin_visit(&mut self, device: u32) -> Hold
        requires device { device < length self.old.row.seats }
        requires visit { (seat_of self.old.row device).view.visit ≡ 0 }
        ensures held { result ≡ Hold.Held →
            (self.new ≡ with_row self.old device seat_visiting) × KnowsOpen (seat_of self.old.row device).view }
        ensures shut { result ≡ Hold.Shut → self.new ≡ with_row self.old device seat_found }
    {
        self.row.begin_visit(device)
    }

    /// Ends this thread's visit of a device, which it has. The device's number is below the count.
    pub fn end_visit(&mut self, device: u32)
        requires device { device < length self.old.row.seats }
        requires visit { (seat_of self.old.row device).view.visit ≡ 1 }
        ensures { self.new ≡ with_row self.old device seat_not_visiting }
    {
        self.row.end_visit(device);
    }

    /// Takes in the set of another thread of the registry, in which no channel stands, which has no visit and has fired each
    /// device that it began. From then on this set's row keeps what the other's had been given, found, begun and fired. Of each
    /// of the two it is known that it fired only what it began.
    pub fn take_in(&mut self, other: ChannelSet)
        requires registry { latches other.row ≡ latches self.old.row }
        requires empty { IsEmpty other }
        requires free { All (λ e. (e.view.visit ≡ 0) × (e.view.begun ≤ e.view.fired)) other.row.seats }
        ensures both { self.new ≡ both_sets self.old other }
        ensures only_who_began { All FiresOnlyWhatItBegan self.old.row.seats × All FiresOnlyWhatItBegan other.row.seats }
    {
        self.row.take_in(other.into_row());
    }

    /// Hands the row back, in which no channel stands.
    pub fn into_row(self) -> DeviceRow
        requires { IsEmpty self }
        ensures row { result ≡ self.row }
        ensures free { All (λ e. e.view.channel ≡ 0) result.seats }
    {
        let ChannelSet { row, channels: _ } = self;
        row
    }
}
