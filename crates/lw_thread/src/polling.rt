//! One poll of a light thread, over its parts.
ghost use Rattle.std.specs.Prelude.{◌≡◌, ◌≤◌, [], length, IfOk, IfErr, OnOk, OnErr};
ghost use Rattle.lw_poller.specs.Pollers.{AreKept};
ghost use Rattle.lw_thread.specs.Polls.{most_taken};
ghost use Rattle.lw_thread.specs.Posting.{IsGoing, HasStopped, RanBatch, RunsPart, CalledActive, CalledTimed, PollsParts, StopsParts, CameToParts, IsStillTied};

use crate::acts::Acts;
use crate::body::Body;
use crate::links::{Links, MOST_TAKEN};
use crate::sending::send_all;
use crate::stop::{Polled, Stop};
use lw_base::{NoMemory, Tick};
use std::alloc::Global;
use std::sync::Wait;

// Takes messages and runs them, calls the pollers, and makes the sends.
pub(crate) fn poll_parts<B: Body, R: Wait>(
    rt: &R,
    alloc: Global,
    now: Tick,
    body: &mut B,
    acts: &mut Acts<B::Message>,
    links: &mut Links<B::Message>,
) -> Result<Polled, Stop>
    requires going { IsGoing B.Message.letter B.Message.fits B.lawful links.old acts.old body.old }
    requires rest { (acts.old.pending ≡ []) × (acts.old.started ≡ []) × (links.old.left ≡ []) }
    ensures going { OnOk result (IsGoing B.Message.letter B.Message.fits B.lawful links.new acts.new body.new
        × (acts.new.pending ≡ []) × (acts.new.started ≡ []) × (links.new.left ≡ [])) }
    ensures kept { OnOk result (AreKept acts.new.pollers) }
    ensures polled { IfOk result (λ p. PollsParts B.Message.letter B.Message.tag_of B.Message.fits B.Message.marked B.runs B.ticks
        B.takes_back now links.old links.new acts.old acts.new body.old body.new p) }
    ensures stop { IfErr result (λ s. HasStopped links.new s × StopsParts B.Message.tag_of B.runs B.Message.letter
        B.Message.fits now links.old links.new acts.old body.old) }
    ensures came { IfErr result (CameToParts B.Message.letter B.Message.tag_of B.Message.fits B.Message.marked B.runs B.ticks
        B.takes_back now links.old links.new acts.old acts.new body.old body.new) }
    ensures still { IsStillTied links.old links.new }
{
    acts.begin(now);
    links.fill(rt)?;
    let ran = run_batch(rt, now, body, acts, links)?;
    let active = call_active(rt, now, body, acts, &*links)?;
    let timed = call_timed(rt, now, body, acts, &*links)?;
    if let Err(stop) = send_all(rt, alloc, body, acts, links) {
        return Err(stop);
    }
    Ok(Polled {
        worked: ran | active | timed,
        started: acts.take_started(),
    })
}

// Runs the batch that was taken. Whether there was a message.
fn run_batch<B: Body, R: Wait>(
    rt: &R,
    now: Tick,
    body: &mut B,
    acts: &mut Acts<B::Message>,
    links: &mut Links<B::Message>,
) -> Result<bool, NoMemory>
    requires going { IsGoing B.Message.letter B.Message.fits B.lawful links.old acts.old body.old }
    requires few { length links.old.left ≤ most_taken }
    ensures going { OnOk result (IsGoing B.Message.letter B.Message.fits B.lawful links.new acts.new body.new) }
    ensures ran { IfOk result (λ worked. RanBatch B.Message.tag_of B.runs now worked links.old links.new acts.old acts.new
        body.old body.new) }
    ensures part { OnErr result (RunsPart B.Message.tag_of B.runs now links.old links.new acts.old body.old) }
{
    let mut ran = false;
    for _ in 0..MOST_TAKEN {
        let Some(message) = links.next() else {
            break;
        };
        body.run(rt, message, now, acts)?;
        acts.count_run();
        ran = true;
    }
    Ok(ran)
}

// Calls the active pollers. Whether one found work.
fn call_active<B: Body, R: Wait>(
    rt: &R,
    now: Tick,
    body: &mut B,
    acts: &mut Acts<B::Message>,
    links: &Links<B::Message>,
) -> Result<bool, NoMemory>
    requires kept { AreKept acts.old.pollers }
    requires going { IsGoing B.Message.letter B.Message.fits B.lawful links.now acts.old body.old }
    ensures going { OnOk result (IsGoing B.Message.letter B.Message.fits B.lawful links.now acts.new body.new) }
    ensures called { IfOk result (λ busy. CalledActive B.ticks now busy links.now acts.old acts.new body.old body.new) }
{
    let mut busy = false;
    for _ in rt.forever() {
        let Some(poller) = acts.next_active() else {
            return Ok(busy);
        };
        let work = body.tick(rt, poller, now, acts)?;
        busy |= work.is_busy();
    }
    unreachable!()
}

// Calls the timed pollers that are due. Whether one found work.
fn call_timed<B: Body, R: Wait>(
    rt: &R,
    now: Tick,
    body: &mut B,
    acts: &mut Acts<B::Message>,
    links: &Links<B::Message>,
) -> Result<bool, NoMemory>
    requires kept { AreKept acts.old.pollers }
    requires going { IsGoing B.Message.letter B.Message.fits B.lawful links.now acts.old body.old }
    ensures going { OnOk result (IsGoing B.Message.letter B.Message.fits B.lawful links.now acts.new body.new) }
    ensures called { IfOk result (λ busy. CalledTimed B.ticks now busy links.now acts.old acts.new body.old body.new) }
{
    let mut busy = false;
    for _ in rt.forever() {
        let Some(poller) = acts.next_timed() else {
            return Ok(busy);
        };
        let work = body.tick(rt, poller, now, acts)?;
        busy |= work.is_busy();
    }
    unreachable!()
}
