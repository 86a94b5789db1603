//! Casts on their way.
ghost use Rattle.std.specs.Prelude.{◌≡◌, ◌<◌, [], ◌∷◌, OnOk, OnErr};
ghost use Rattle.lw_passing.specs.Passing.{PassesCast};

use lw_base::NoMemory;
use lw_mail::{Content, Mail};
use lw_thread::Acts;
use lw_visit::{CastToken, Next};
use std::alloc::Global;

/// The thread `here`, to which the token goes, runs a cast: it adds its number, and asks for one send. The token goes to the next
/// thread, or behind the last one home to its origin.
///
/// Without memory nothing is asked for, and the token is dropped.
pub fn pass_cast(
    alloc: Global,
    here: u32,
    token: CastToken,
    acts: &mut Acts<Mail>,
) -> Result<(), NoMemory>
    requires here { (token.goes_to ≡ here) × (here < token.threads) }
    requires threads { (token.threads ≡ acts.old.threads) × (token.origin < acts.old.threads) }
    ensures passes { OnOk result (PassesCast here (here ∷ []) token acts.old acts.new) }
    ensures same { OnErr result (acts.new ≡ acts.old) }
{
    let origin = token.origin();
    let (to, content) = match token.step(here) {
        Next::To(to, token) => (to, Content::Cast(Box::new(alloc, token)?)),
        Next::Complete(token) => (origin, Content::Casted(Box::new(alloc, token)?)),
    };
    acts.send(to, Mail::new(content))
}

/// A cast comes back from the thread `past`, which has ended: it goes past that thread, whose number isn't added, to the thread behind
/// it, or home where that was the last one. One send is asked for.
///
/// Without memory nothing is asked for, and the token is dropped.
pub fn skip_cast(
    alloc: Global,
    past: u32,
    token: CastToken,
    acts: &mut Acts<Mail>,
) -> Result<(), NoMemory>
    requires past { (token.goes_to ≡ past) × (past < token.threads) }
    requires threads { (token.threads ≡ acts.old.threads) × (token.origin < acts.old.threads) }
    ensures passes { OnOk result (PassesCast past [] token acts.old acts.new) }
    ensures same { OnErr result (acts.new ≡ acts.old) }
{
    let origin = token.origin();
    let (to, content) = match token.skip(past) {
        Next::To(to, token) => (to, Content::Cast(Box::new(alloc, token)?)),
        Next::Complete(token) => (origin, Content::Casted(Box::new(alloc, token)?)),
    };
    acts.send(to, Mail::new(content))
}
