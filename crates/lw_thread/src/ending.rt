//! How a light thread ends.
use crate::body::Body;
use crate::remains::Remains;
use crate::thread::LightThread;

/// Why a thread hasn't ended: the first of these that it shows.
#[derive(Clone, Copy, PartialEq, Eq, Debug)]
pub enum Why {
    /// Its end wasn't asked for.
    NotAsked,
    /// A poller is live.
    Pollers,
    /// The body says that it may not end.
    Body,
    /// Its ring didn't close: the latch's word was `seen`, so a message waits, or a sender is about to send.
    Ring { seen: u64 },
}

/// What came of a try to end a thread.
#[derive(Drop)]
pub enum Ending<B: Body> {
    /// It has ended.
    Ended(Remains<B>),
    /// It goes on, as it was.
    NotYet(LightThread<B>, Why),
}

impl<B: Body> LightThread<B> {
    ghost use Rattle.std.specs.Prelude.{◌≡◌, false};
    ghost use Rattle.lw_place.specs.PlaceSeats.{IsList};
    ghost use Rattle.lw_thread.specs.Endings.{EndsAs};

    /// Ends the thread, where its end was asked for, no poller is live, the body may end and its ring closes. It closes only where
    /// every message ever sent to it was taken, and then none is ever sent to it again. In the same call its place becomes that
    /// of an ended thread.
    ///
    /// The thread stands in a reactor's list, and no poll of it has answered Stop. It takes no memory.
    pub fn try_end(self) -> Ending<B>
        requires place { IsList self.seat.place }
        requires going { self.stopped ≡ false }
        ensures { EndsAs B.ends self result }
    {
        if !self.acts.asked_end() {
            return Ending::NotYet(self, Why::NotAsked);
        }
        if !self.acts.has_no_poller() {
            return Ending::NotYet(self, Why::Pollers);
        }
        if !self.body.may_end() {
            return Ending::NotYet(self, Why::Body);
        }
        self.close()
    }
}
