//! Where a thread stands, and how far a device is.
ghost use Rattle.std.specs.Prelude.{◌≡◌};

use crate::register::Keyed;

/// Where a light thread stands.
#[derive(Copy, Clone, PartialEq, Eq, Debug)]
pub enum Standing {
    /// In the list of this reactor.
    List { reactor: u32 },
    /// On its way to this reactor.
    Event { reactor: u32 },
    Ended,
}

/// How far a device is.
#[derive(Copy, Clone, PartialEq, Eq, Debug)]
pub enum Stage {
    Open,
    /// Shut by this thread; its callback hasn't fired.
    Shut { by: u32 },
    Fired,
}

// Threads are counted by the list that they stand in; key 0 is that of no list.
impl Keyed for Standing {
    ghost use Rattle.lw_world.specs.Keys.{list_key};

    ghost key = { list_key };

    fn key(self) -> usize {
        match self {
            Standing::List { reactor } => reactor as usize + 1,
            Standing::Event { .. } | Standing::Ended => 0,
        }
    }
}

// Devices are counted by the thread whose callback is still to fire; key 0 is that of none.
impl Keyed for Stage {
    ghost use Rattle.lw_world.specs.Keys.{shut_key};

    ghost key = { shut_key };

    fn key(self) -> usize {
        match self {
            Stage::Shut { by } => by as usize + 1,
            Stage::Open | Stage::Fired => 0,
        }
    }
}
