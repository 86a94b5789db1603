//! Polls of light threads and tries to end them, by hand.
ghost use Rattle.std.specs.Prelude.{◌≡◌, IfOk, IfSome};
ghost use Rattle.lw_thread.specs.Threads.{IsStill};
ghost use Rattle.lw_thread_tests.specs.Turns.{GoesOn};

use crate::players::Player;
use lw_base::{Tag, Tick, What};
use lw_poller::PollerId;
use lw_thread::{Ending, LightThread, Opened, Polled, Remains, Stop, Why};
use std::sync::Wait;

/// Polls a thread, and says whether it worked.
pub fn works<R: Wait>(rt: &R, thread: &mut LightThread<Player>, now: Tick) -> Result<bool, Stop>
    requires { GoesOn thread.old }
    ensures going { IfOk result (λ _. GoesOn thread.new) }
    ensures still { IfOk result (λ _. IsStill thread.old thread.new) }
{
    let polled = thread.poll(rt, now)?;
    Ok(polled.worked)
}

/// Gives a thread its first poller, and polls it once.
pub fn first_poll<R: Wait>(
    rt: &R,
    thread: &mut LightThread<Player>,
    now: Tick,
) -> Result<Polled, Stop>
    requires { GoesOn thread.old }
    ensures going { IfOk result (λ _. GoesOn thread.new) }
    ensures still { IfOk result (λ _. IsStill thread.old thread.new) }
{
    let _lawful = thread.number();
    if thread.add_active() != Ok(PollerId(0)) {
        return Err(Stop::NoMemory);
    }
    thread.poll(rt, now)
}

/// What is left of a thread that ends.
pub fn ended(thread: LightThread<Player>) -> Option<Remains<Player>>
    requires { GoesOn thread }
    ensures recv { IfSome result (λ r. r.recv ≡ record thread.recv { closed = 1 }) }
    ensures ends { IfSome result (λ r. r.ends ≡ thread.ends) }
{
    match thread.try_end() {
        Ending::Ended(remains) => Some(remains),
        Ending::NotYet(_, _) => None,
    }
}

/// Why a thread doesn't end. It goes on.
#[tactic(auto, using(crate::proofs::Waiting::still_goes_on))]
pub fn why(thread: LightThread<Player>) -> Option<(LightThread<Player>, Why)>
    requires { GoesOn thread }
    ensures { IfSome result (λ r. GoesOn r.0) }
{
    match thread.try_end() {
        Ending::Ended(_) => None,
        Ending::NotYet(thread, why) => Some((thread, why)),
    }
}

/// Whether these are the tags of requests 0, 1, .. of thread 0.
pub fn are_requests(ran: &[Tag], count: u32) -> bool {
    let mut all = ran.len() == count as usize;
    for (place, tag) in (0..count).zip(ran) {
        let wanted = Tag {
            sender: 0,
            number: u64::from(place),
            what: What::Request { op: place },
        };
        all = all && *tag == wanted;
    }
    all
}

/// Whether the thread has sent so many messages to thread 0, to thread 1 and so on.
pub fn are_sent(parts: &Opened<Player>, counts: &[u64]) -> bool {
    let mut all = parts.ends.len() == counts.len();
    for (end, count) in parts.ends.iter().zip(counts) {
        all = all && end.sent() == *count;
    }
    all
}
