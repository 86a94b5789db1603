//! What a light thread does.
ghost use Rattle.std.specs.Prelude.{◌≡◌, ℕ, ◌<◌, ◌↔◌, List, [], ◌∷◌, ◌++◌, length, IsTrue, IfOk, OnOk};
ghost use Rattle.lw_base.specs.Letters.{list_at};
ghost use Rattle.lw_poller.specs.Pollers.{times};
ghost use Rattle.lw_thread.specs.Acts.{Known, Asks, Post, Doing, AllFit, asks_of, letters, and_run, and_sent};
ghost use Rattle.lw_thread.specs.Calls.{AreOf, IsToRun, IsBack, Adds};

use crate::acts::Acts;
use lw_base::{NoMemory, Tagged, Tick};
use lw_poller::PollerId;
use std::sync::Wait;

/// Whether a poller found work. A poll in which one did has worked.
#[derive(Drop, Clone, Copy, PartialEq, Eq, Debug)]
pub enum Work {
    /// It found some.
    Busy,
    /// It found none.
    Idle,
}

impl Work {
    // Whether it found some.
    pub(crate) fn is_busy(self) -> bool
        ensures { IsTrue result ↔ (self ≡ Work.Busy) }
    {
        match self {
            Work::Busy => true,
            Work::Idle => false,
        }
    }
}

/// What a light thread does with messages and in its pollers.
///
/// `lawful` is what a body keeps between its calls: of what its thread has run and sent, what it has under way, and itself. Each
/// call keeps it, for every list of messages for which it held. After a call that answers `NoMemory` nothing is said of the body,
/// and its thread isn't polled again.
///
/// Each call gets the acts of its thread, and may change them by their calls alone.
pub trait Body: Drop + Send {
    ghost use Rattle.std.specs.Prelude.{ℕ, Bool, List};
    ghost use Rattle.lw_thread.specs.declared.body.Work.{Work};
    ghost use Rattle.lw_thread.specs.Acts.{Known, Asks, Post, Doing};

    type Message: Tagged + Drop + Send;

    ghost lawful: { Known Self.Message.Letter Self.Message.Family → Asks Self.Message.Letter → Self → Type 0 };

    // What `may_end` answers.
    ghost ends: { Self → Bool };

    // What a run of this letter at this time does, from the body and its acts before to those after.
    ghost runs: { Self.Message.Letter → ℕ → Doing Self.Message Self → Doing Self.Message Self → Type 0 };

    // What a call of this poller at this time does that answers so.
    ghost ticks: { ℕ → ℕ → Work → Doing Self.Message Self → Doing Self.Message Self → Type 0 };

    // What the body does with a message that comes back, which was to go to this thread.
    ghost takes_back: { ℕ → Self.Message.Letter → Doing Self.Message Self → Doing Self.Message Self → Type 0 };

    /// Runs a message. What it asks to send is sent behind all that is still to be sent.
    ///
    /// The message fits the thread's ring, and a thread of the run sent it.
    fn run<R: Wait>(
        &mut self,
        rt: &R,
        message: Self::Message,
        now: Tick,
        acts: &mut Acts<Self::Message>,
    ) -> Result<(), NoMemory>
        requires { (k : Known Self.Message.Letter Self.Message.Family) × AreOf k acts.old
            × IsToRun Self.Message.letter Self.Message.tag_of Self.Message.fits k message
            × lawful k (asks_of Self.Message.letter acts.old) self.old }
        ensures lawful { OnOk result ((k : Known Self.Message.Letter Self.Message.Family) → AreOf k acts.old
            → IsToRun Self.Message.letter Self.Message.tag_of Self.Message.fits k message
            → lawful k (asks_of Self.Message.letter acts.old) self.old
            → lawful (and_run k (Self.Message.letter message)) (asks_of Self.Message.letter acts.new) self.new) }
        ensures adds { OnOk result (Adds acts.old acts.new) }
        ensures fits { OnOk result ((k : Known Self.Message.Letter Self.Message.Family) → AreOf k acts.old
            → IsToRun Self.Message.letter Self.Message.tag_of Self.Message.fits k message
            → lawful k (asks_of Self.Message.letter acts.old) self.old
            → AllFit Self.Message.fits k.family acts.old.pending → AllFit Self.Message.fits k.family acts.new.pending) }
        ensures does { OnOk result (runs (Self.Message.letter message) now
            (record { body = self.old; acts = acts.old }) (record { body = self.new; acts = acts.new })) };

    /// A poller is called, which is live. What it asks to send is sent behind all that is still to be sent.
    fn tick<R: Wait>(
        &mut self,
        rt: &R,
        poller: PollerId,
        now: Tick,
        acts: &mut Acts<Self::Message>,
    ) -> Result<Work, NoMemory>
        requires live { times poller.0 acts.old.pollers ≡ 1 }
        requires called { (k : Known Self.Message.Letter Self.Message.Family) × AreOf k acts.old
            × lawful k (asks_of Self.Message.letter acts.old) self.old }
        ensures lawful { OnOk result ((k : Known Self.Message.Letter Self.Message.Family) → AreOf k acts.old
            → lawful k (asks_of Self.Message.letter acts.old) self.old
            → lawful k (asks_of Self.Message.letter acts.new) self.new) }
        ensures adds { OnOk result (Adds acts.old acts.new) }
        ensures fits { OnOk result ((k : Known Self.Message.Letter Self.Message.Family) → AreOf k acts.old
            → lawful k (asks_of Self.Message.letter acts.old) self.old
            → AllFit Self.Message.fits k.family acts.old.pending → AllFit Self.Message.fits k.family acts.new.pending) }
        ensures does { IfOk result (λ work. ticks poller.0 now work
            (record { body = self.old; acts = acts.old }) (record { body = self.new; acts = acts.new })) };

    /// A message comes back, since the thread that it was to go to has ended. No other send is to be seen in `acts`; what this
    /// call asks to send is sent before all others.
    ///
    /// Its tag has 0 for its sender and its number. After `NoMemory` the sends that were asked for before are still to be made;
    /// of those that this call asked for some may be dropped.
    fn returned<R: Wait>(
        &mut self,
        rt: &R,
        to: u32,
        message: Self::Message,
        acts: &mut Acts<Self::Message>,
    ) -> Result<(), NoMemory>
        requires none { acts.old.pending ≡ [] }
        requires called { (k : Known Self.Message.Letter Self.Message.Family) × (rest : List (Post Self.Message.Letter))
            × AreOf k acts.old × IsBack Self.Message.letter Self.Message.marked Self.Message.fits k to message
            × lawful k (record {
              live = (asks_of Self.Message.letter acts.old).live;
              pending = record { to = to; what = Self.Message.letter message } ∷ rest;
            }) self.old }
        ensures lawful { OnOk result ((k : Known Self.Message.Letter Self.Message.Family)
            (rest : List (Post Self.Message.Letter)) → AreOf k acts.old → IsBack Self.Message.letter Self.Message.marked Self.Message.fits k to message
            → lawful k (record {
              live = (asks_of Self.Message.letter acts.old).live;
              pending = record { to = to; what = Self.Message.letter message } ∷ rest;
            }) self.old
            → lawful k (record {
              live = (asks_of Self.Message.letter acts.new).live;
              pending = letters Self.Message.letter acts.new.pending ++ rest;
            }) self.new) }
        ensures adds { OnOk result (Adds acts.old acts.new) }
        ensures threads { acts.new.threads ≡ acts.old.threads }
        ensures fits { OnOk result ((k : Known Self.Message.Letter Self.Message.Family)
            (rest : List (Post Self.Message.Letter)) → AreOf k acts.old → IsBack Self.Message.letter Self.Message.marked Self.Message.fits k to message
            → lawful k (record {
              live = (asks_of Self.Message.letter acts.old).live;
              pending = record { to = to; what = Self.Message.letter message } ∷ rest;
            }) self.old
            → AllFit Self.Message.fits k.family acts.new.pending) }
        ensures does { OnOk result (takes_back to (Self.Message.letter message)
            (record { body = self.old; acts = acts.old }) (record { body = self.new; acts = acts.new })) };

    /// Whether the body has nothing left to do. It says so in a state in which it keeps nothing of others.
    fn may_end(&self) -> bool
        ensures { result ≡ ends self.now };

    // Making the first of the sends keeps what is lawful: it is sent under the number that comes next.
    ghost sending: { (k : Known Self.Message.Letter Self.Message.Family) (live : ℕ → ℕ) (to : ℕ) (x : Self.Message.Letter)
        (rest : List (Post Self.Message.Letter)) (body : Self)
        → to < length k.sent
        → lawful k (record { live = live; pending = record { to = to; what = x } ∷ rest }) body
        → lawful (and_sent k to (Self.Message.marked x k.thread (length (list_at k.sent to))))
        (record { live = live; pending = rest }) body };
}
