//! What a thread keeps of one device.
ghost use Rattle.std.specs.Prelude.{◌≡◌, ◌+◌, ◌^◌, ◌<◌, ◌≤◌, true, false, IfOk, IfErr};
ghost use Rattle.lw_latch.specs.DeviceWord.{most_gives};
ghost use Rattle.lw_channel.specs.Channels.{no_channel, destroys, channel_made, channel_shared, channel_refused, channel_counted, channel_deferred, channel_given_back, channel_kept, channel_destroyed, channel_submitted};

use thiserror::Error;

/// What a put left.
#[derive(Clone, Copy, PartialEq, Eq, Debug)]
pub enum Put {
    /// References are left.
    Counted,
    /// None is left. The caller sends a message to its own thread, and calls `ChannelSet::put_message` when it runs that.
    Deferred,
}

/// The thread has no reference to a channel of the device.
#[derive(Clone, Copy, PartialEq, Eq, Debug, Error)]
#[error("there is no reference to a channel of the device")]
pub struct NoChannel;

/// What the message behind a last put did.
#[derive(Clone, Copy, PartialEq, Eq, Debug)]
pub enum After {
    /// No reference was left, and no other such message was pending: the channel is gone.
    Destroyed,
    /// The channel stands on.
    Kept,
}

/// What a thread keeps of one device.
#[derive(Clone, Copy, Debug)]
pub struct Channel {
    /// The ordinal of the thread's channel, where one stands.
    pub ordinal: Option<u64>,
    /// How many gets of it were not put back.
    pub references: u64,
    /// How many messages behind a last put were asked for and have not run.
    pub pending: u64,
    /// How many requests were submitted since the last channel was made.
    pub submitted: u64,
    /// How many gets found that there is such a device.
    pub gets: u64,
}

impl Channel {
    pub(crate) fn new() -> Channel
        ensures { result ≡ no_channel }
    {
        Channel {
            ordinal: None,
            references: 0,
            pending: 0,
            submitted: 0,
            gets: 0,
        }
    }

    // A first get: the channel is new, and nothing was submitted on it.
    pub(crate) fn make(&mut self, ordinal: u64)
        requires few { self.old.references ≤ most_gives }
        requires room { self.old.gets < most_gives }
        ensures { self.new ≡ channel_made ordinal self.old }
    {
        self.ordinal = Some(ordinal);
        self.references += 1;
        self.submitted = 0;
        self.gets += 1;
    }

    // A further get.
    pub(crate) fn share(&mut self)
        requires few { self.old.references ≤ most_gives }
        requires room { self.old.gets < most_gives }
        ensures { self.new ≡ channel_shared self.old }
    {
        self.references += 1;
        self.gets += 1;
    }

    // A get that found the device shut.
    pub(crate) fn refuse(&mut self)
        requires { self.old.gets < most_gives }
        ensures { self.new ≡ channel_refused self.old }
    {
        self.gets += 1;
    }

    // One reference is given back.
    pub(crate) fn put(&mut self) -> Result<Put, NoChannel>
        requires { self.old.references + self.old.pending ≤ most_gives }
        ensures counted { IfOk result (λ put. put ≡ Put.Counted →
            (2 ≤ self.old.references) × (self.new ≡ channel_counted self.old)) }
        ensures deferred { IfOk result (λ put. put ≡ Put.Deferred →
            (self.old.references ≡ 1) × (self.new ≡ channel_deferred self.old)) }
        ensures no_channel { IfErr result (λ _. (self.old.references ≡ 0) × (self.new ≡ self.old)) }
    {
        if self.references == 0 {
            return Err(NoChannel);
        }
        self.references -= 1;
        if self.references != 0 {
            return Ok(Put::Counted);
        }
        self.pending += 1;
        Ok(Put::Deferred)
    }

    // All references are given back.
    pub(crate) fn put_all(&mut self) -> Result<Put, NoChannel>
        requires { self.old.references + self.old.pending ≤ most_gives }
        ensures deferred { IfOk result (λ put.
            (put ≡ Put.Deferred) × (1 ≤ self.old.references) × (self.new ≡ channel_given_back self.old)) }
        ensures no_channel { IfErr result (λ _. (self.old.references ≡ 0) × (self.new ≡ self.old)) }
    {
        if self.references == 0 {
            return Err(NoChannel);
        }
        self.references = 0;
        self.pending += 1;
        Ok(Put::Deferred)
    }

    // A message behind a last put runs.
    pub(crate) fn message(&mut self) -> After
        requires { 1 ≤ self.old.pending }
        ensures destroyed { result ≡ After.Destroyed →
            (destroys self.old ≡ true) × (self.new ≡ channel_destroyed self.old) }
        ensures kept { result ≡ After.Kept → (destroys self.old ≡ false) × (self.new ≡ channel_kept self.old) }
    {
        self.pending -= 1;
        if self.pending != 0 || self.references != 0 {
            return After::Kept;
        }
        self.ordinal = None;
        After::Destroyed
    }

    // A request is submitted on the channel.
    pub(crate) fn submit(&mut self)
        requires { self.old.submitted < 2 ^ 40 }
        ensures { self.new ≡ channel_submitted self.old }
    {
        self.submitted += 1;
    }
}
