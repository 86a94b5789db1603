//! What a client keeps of one device.
ghost use Rattle.std.specs.Prelude.{◌≡◌, ◌+◌, ◌≤◌, ◌<◌, map, None, vec_len};
ghost use Rattle.std.specs.List.{All};
ghost use Rattle.lw_target.specs.Effects.{channel_after, after_put, gave_back, held_of, holds_most};

use lw_model::Answer;

/// What a client keeps of one device.
#[derive(Copy, Clone, Drop)]
pub struct Channel {
    /// The channel's ordinal, where one stands.
    pub ordinal: Option<u64>,
    pub references: u64,
    /// The messages to itself that would destroy the channel, sent and not yet run.
    pub pending: u64,
}

impl Channel {
    /// Nothing is kept.
    pub fn new() -> Channel
        ensures { result ≡ record { ordinal = None; references = 0; pending = 0 } }
    {
        Channel {
            ordinal: None,
            references: 0,
            pending: 0,
        }
    }

    /// The channel behind an op that was answered.
    pub fn after(self, answer: Answer) -> Channel
        requires { held_of self < holds_most }
        ensures { result ≡ channel_after answer self }
    {
        let mut channel = self;
        match answer {
            Answer::Given { ordinal } => {
                channel.ordinal = Some(ordinal);
                channel.references += 1;
            }
            Answer::Again { .. } => channel.references += 1,
            Answer::Counted => channel.references = channel.references.saturating_sub(1),
            Answer::Deferred => {
                channel.references = channel.references.saturating_sub(1);
                channel.pending += 1;
            }
            _ => {}
        }
        channel
    }

    /// The channel behind a message that may destroy it: it stands on while a reference is left or another such message
    /// is pending.
    pub fn after_put(self) -> Channel
        ensures { result ≡ after_put self }
    {
        if self.pending == 0 {
            return self;
        }
        let pending = self.pending - 1;
        let mut ordinal = self.ordinal;
        if pending == 0 && self.references == 0 {
            ordinal = None;
        }
        Channel {
            ordinal,
            references: self.references,
            pending,
        }
    }

    /// The channel when all its references were given back at once.
    pub fn gave_back(self) -> Channel
        requires { held_of self < holds_most }
        ensures { result ≡ gave_back self }
    {
        if self.references == 0 {
            return self;
        }
        Channel {
            ordinal: self.ordinal,
            references: 0,
            pending: self.pending + 1,
        }
    }
}

/// Gives back the references of each channel.
pub fn give_back_all(channels: &mut Vec<Channel>)
    requires { All (λ k. held_of k < holds_most) channels.old.items }
    ensures items { channels.new.items ≡ map gave_back channels.old.items }
    ensures len { vec_len channels.new ≡ vec_len channels.old }
{
    for channel in channels.iter_mut() {
        *channel = channel.gave_back();
    }
}
