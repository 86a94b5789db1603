//! What a turn answers.
ghost use Rattle.std.specs.Prelude.{◌≡◌};

use std::alloc::{AllocError, AllocFailed};
use thiserror::Error;

/// How a turn found the run.
#[derive(Clone, Copy, PartialEq, Eq, Debug)]
pub enum Turned {
    /// It goes on.
    Going,
    /// All threads have ended.
    Finished,
    /// It was halted: a reactor has stopped.
    Halted,
}

/// Why a reactor stopped. It makes no turn any more.
#[derive(Clone, Copy, PartialEq, Eq, Debug, Error)]
pub enum Stop {
    /// There was no memory.
    #[error("there was no memory")]
    NoMemory,
    /// An end has sent `count`, 2^40, the most that it can: where `events` is true reactor `from`'s end to the event ring of
    /// reactor `to`, and else thread `from`'s end to the ring of thread `to`.
    #[error("the end from {from} to {to} has sent {count}")]
    Spent {
        events: bool,
        from: u32,
        to: u32,
        count: u64,
    },
}

impl From<AllocError> for Stop {
    ghost use Rattle.lw_station.specs.declared.stop.Stop.TheVariants.{NoMemory};

    ghost from_gives = { λ _ e. e ≡ NoMemory };

    fn from(_e: AllocError) -> Stop {
        Stop::NoMemory
    }
}

impl<T: Drop> From<AllocFailed<T>> for Stop {
    ghost use Rattle.lw_station.specs.declared.stop.Stop.TheVariants.{NoMemory};

    ghost from_gives = { λ _ e. e ≡ NoMemory };

    fn from(_e: AllocFailed<T>) -> Stop {
        Stop::NoMemory
    }
}
