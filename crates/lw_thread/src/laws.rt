//! What follows of what the calls of light threads say.
ghost use Rattle.std.specs.Prelude.{◌≡◌, ℕ, ◌++◌, map};
ghost use Rattle.lw_poller.specs.LocalDue.{begun};
ghost use Rattle.lw_poller.specs.Pollers.{AreKept};
ghost use Rattle.lw_thread.specs.Endings.{EndsAs, EndsIn};
ghost use Rattle.lw_thread.specs.PollersCalled.{CallsPollers, calls_of};
ghost use Rattle.lw_thread.specs.Polls.{Polls, ticked};
ghost use Rattle.lw_thread.specs.Runs.{RunId};
ghost use Rattle.lw_thread.specs.Threads.{IsStill, IsThreadOf, Thread};
ghost use Rattle.lw_thread.specs.declared.ending.Ending.{Ending};
ghost use Rattle.lw_thread.specs.declared.stop.Polled.{Polled};

use crate::body::Body;

/// The calls on the set of pollers that a poll makes (`calls_of`: each change by the body, and each call that gives a poller)
/// lead from those that the thread had to those that it has after it, and give those that the poll calls, in this order. So
/// whatever the body adds, pauses, resumes and removes meanwhile, each is called once at most, and none from that moment on in
/// which no live poller has its number, or in which it is paused and after which it isn't resumed. The pollers are a set of
/// pollers after the poll as before.
pub fn a_removed_poller_is_not_called<B: Body>()
    ensures called { (now : ℕ) (old new : Thread B.Message.Letter B.Message.Family B.Message B) (result : Polled)
        → AreKept old.acts.pollers
        → (p : Polls B.Message.letter B.Message.tag_of B.Message.fits B.Message.marked B.runs B.ticks B.takes_back now old new result)
        → CallsPollers (begun now old.acts.pollers) (calls_of p) (map ticked (p.active ++ p.timed)) new.acts.pollers }
    ensures kept { (now : ℕ) (old new : Thread B.Message.Letter B.Message.Family B.Message B) (result : Polled)
        → AreKept old.acts.pollers
        → Polls B.Message.letter B.Message.tag_of B.Message.fits B.Message.marked B.runs B.ticks B.takes_back now old new result
        → AreKept new.acts.pollers }
{}

/// A thread stays of its run, and its remains are of the run that it was of.
pub fn a_thread_stays_of_its_run<B: Body>()
    ensures still { (run : RunId B.Message.Family) (old new : Thread B.Message.Letter B.Message.Family B.Message B)
        → IsStill old new → IsThreadOf run old → IsThreadOf run new }
    ensures tried { (run : RunId B.Message.Family) (t : Thread B.Message.Letter B.Message.Family B.Message B) (e : Ending B B.Message B.Message.Letter B.Message.Family)
        → EndsAs B.ends t e → IsThreadOf run t → EndsIn run e }
{}
