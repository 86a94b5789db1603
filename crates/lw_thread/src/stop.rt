//! What a poll answers.
ghost use Rattle.std.specs.Prelude.{◌≡◌};

use std::alloc::{AllocError, AllocFailed};
use thiserror::Error;

/// What a poll came to.
#[derive(Drop, Debug)]
pub struct Polled {
    /// Whether a message was run, or a poller found work.
    pub worked: bool,
    /// The threads that the body asked to start, in the order in which it did.
    pub started: Vec<u32>,
}

/// Why a poll stopped. The thread isn't polled again.
#[derive(Clone, Copy, PartialEq, Eq, Debug, Error)]
pub enum Stop {
    /// There was no memory.
    #[error("there was no memory")]
    NoMemory,
    /// The end to thread `to` has sent `count` messages, 2^40, the most that it can.
    #[error("the end to thread {to} has sent {count} messages")]
    Spent { to: u32, count: u64 },
}

impl From<AllocError> for Stop {
    ghost use Rattle.lw_thread.specs.declared.stop.Stop.TheVariants.{NoMemory};

    ghost from_gives = { λ _ e. e ≡ NoMemory };

    fn from(_e: AllocError) -> Stop {
        Stop::NoMemory
    }
}

impl<T: Drop> From<AllocFailed<T>> for Stop {
    ghost use Rattle.lw_thread.specs.declared.stop.Stop.TheVariants.{NoMemory};

    ghost from_gives = { λ _ e. e ≡ NoMemory };

    fn from(_e: AllocFailed<T>) -> Stop {
        Stop::NoMemory
    }
}
