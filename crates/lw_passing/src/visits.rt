//! Visits on their way.
ghost use Rattle.std.specs.Prelude.{◌≡◌, ◌<◌, [], OnOk, OnErr};
ghost use Rattle.lw_visit.specs.Tokens.{marks_of};
ghost use Rattle.lw_passing.specs.Passing.{PassesVisit};

use lw_base::NoMemory;
use lw_channel::ChannelSet;
use lw_mail::{Content, Mail};
use lw_thread::Acts;
use lw_visit::{Next, VisitToken};
use std::alloc::Global;

/// The thread `here`, to which the token goes, runs a visit: it adds its mark exactly where its set holds a channel of the device, with
/// what was submitted on that, and asks for one send. The token goes to the next thread, or behind the last one home to its origin.
///
/// Without memory nothing is asked for, and the token is dropped.
pub fn pass_visit(
    alloc: Global,
    set: &ChannelSet,
    here: u32,
    token: VisitToken,
    acts: &mut Acts<Mail>,
) -> Result<(), NoMemory>
    requires here { (token.goes_to ≡ here) × (here < token.threads) }
    requires threads { (token.threads ≡ acts.old.threads) × (token.origin < acts.old.threads) }
    ensures passes { OnOk result (PassesVisit here (marks_of here token.device set.now) token acts.old acts.new) }
    ensures same { OnErr result (acts.new ≡ acts.old) }
{
    let origin = token.origin();
    let (to, content) = match token.step(here, set) {
        Next::To(to, token) => (to, Content::Visit(Box::new(alloc, token)?)),
        Next::Complete(token) => (origin, Content::Visited(Box::new(alloc, token)?)),
    };
    acts.send(to, Mail::new(content))
}

/// A visit comes back from the thread `past`, which has ended: it goes past that thread, without a mark, to the thread behind it, or
/// home where that was the last one. One send is asked for.
///
/// Without memory nothing is asked for, and the token is dropped.
pub fn skip_visit(
    alloc: Global,
    past: u32,
    token: VisitToken,
    acts: &mut Acts<Mail>,
) -> Result<(), NoMemory>
    requires past { (token.goes_to ≡ past) × (past < token.threads) }
    requires threads { (token.threads ≡ acts.old.threads) × (token.origin < acts.old.threads) }
    ensures passes { OnOk result (PassesVisit past [] token acts.old acts.new) }
    ensures same { OnErr result (acts.new ≡ acts.old) }
{
    let origin = token.origin();
    let (to, content) = match token.skip(past) {
        Next::To(to, token) => (to, Content::Visit(Box::new(alloc, token)?)),
        Next::Complete(token) => (origin, Content::Visited(Box::new(alloc, token)?)),
    };
    acts.send(to, Mail::new(content))
}
