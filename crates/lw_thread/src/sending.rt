//! The sends that a poll asked for are made.
//!
//! They are made in order; those that stand next to each other and go to one thread go in one run. What comes back, since that
//! thread has ended, goes to the body message by message, and what that asks for is sent first.
ghost use Rattle.std.specs.Prelude.{◌≡◌, ◌≢◌, ◌+◌, ◌<◌, ◌≤◌, ℕ, [], length, List, ◌++◌, All, IfErr, OnOk, OnErr, slice_index_or, vec_capacity};
ghost use Rattle.lw_base.specs.Letters.{FitsRing};
ghost use Rattle.lw_latch.specs.RingWord.{most_sent};
ghost use Rattle.lw_ring.specs.Calls.{NamedFrom};
ghost use Rattle.lw_thread.specs.Acts.{AllFit, Post};
ghost use Rattle.lw_thread.specs.Sending.{first_to};
ghost use Rattle.lw_thread.specs.Posting.{Posts, PostsUntil, IsGoing, IsSending, HasStopped, Gathers, PutsFirst, SendsFirst, StillWait, TakesBack, KeepsOthers};

use crate::acts::{Acts, Asked};
use crate::body::Body;
use crate::links::Links;
use crate::stop::Stop;
use lw_base::{NoMemory, Tagged};
use lw_ring::SendRefusal;
use std::alloc::Global;
use std::sync::Wait;

// Makes all sends that were asked for, and those that come of what comes back.
pub(crate) fn send_all<B: Body, R: Wait>(
    rt: &R,
    alloc: Global,
    body: &mut B,
    acts: &mut Acts<B::Message>,
    links: &mut Links<B::Message>,
) -> Result<(), Stop>
    requires { IsGoing B.Message.letter B.Message.fits B.lawful links.old acts.old body.old }
    ensures going { OnOk result (IsGoing B.Message.letter B.Message.fits B.lawful links.new acts.new body.new
        × (acts.new.pending ≡ [])) }
    ensures posts { OnOk result (Posts B.Message.letter B.Message.marked B.takes_back links.old links.new
        acts.old acts.new body.old body.new) }
    ensures same { IsSending links.old links.new }
    ensures stop { IfErr result (HasStopped links.new) }
    ensures until { IfErr result (PostsUntil B.Message.letter B.Message.marked B.takes_back links.old links.new acts.old acts.new
        body.old body.new) }
{
    for _ in rt.forever() {
        let Some(to) = acts.first_receiver() else {
            return Ok(());
        };
        if links.is_gone(to) {
            hand_back(rt, body, acts, &*links)?;
        } else {
            send_on(rt, alloc, to, acts, links)?;
        }
    }
    unreachable!()
}

// Makes the first send, and those next to it that go to the same thread, in one run as far as the end has room. What comes back
// is the first again.
fn send_on<M: Tagged + Drop, R: Wait>(
    rt: &R,
    alloc: Global,
    to: u32,
    acts: &mut Acts<M>,
    links: &mut Links<M>,
) -> Result<(), Stop>
    requires to { 1 ≤ first_to to acts.old.pending }
    requires in_range { to < length links.old.ends }
    requires threads { acts.old.threads ≡ length links.old.ends }
    requires fits { AllFit M.fits links.old.recv.family acts.old.pending }
    ensures ok { OnOk result ((count : ℕ) × (1 ≤ count)
        × SendsFirst M.letter M.marked M.fits count links.old links.new acts.old acts.new) }
    ensures same { IsSending links.old links.new }
    ensures stop { IfErr result (HasStopped links.new) }
    ensures wait { IfErr result (StillWait M.letter links.old links.new acts.old acts.new) }
{
    let count = acts.neighbours(to, links.room(to));
    if count < 2 {
        send_one(rt, acts, links)
    } else {
        send_some(rt, alloc, to, count, acts, links)
    }
}

// The first send is not made, since its receiver has ended: its message goes to the body. Whether the body took it or not, the
// other sends are still to be made, behind those that it asked for. Where there is no memory for these, some are dropped.
fn hand_back<B: Body, R: Wait>(
    rt: &R,
    body: &mut B,
    acts: &mut Acts<B::Message>,
    links: &Links<B::Message>,
) -> Result<(), NoMemory>
    requires first { acts.old.pending ≢ [] }
    requires going { IsGoing B.Message.letter B.Message.fits B.lawful links.now acts.old body.old }
    ensures going { OnOk result (IsGoing B.Message.letter B.Message.fits B.lawful links.now acts.new body.new) }
    ensures back { OnOk result (TakesBack B.Message.letter B.takes_back acts.old acts.new body.old body.new) }
    ensures kept { KeepsOthers acts.old acts.new }
{
    let Some(Asked { to, message }) = acts.next_send() else {
        unreachable!()
    };
    let rest = acts.set_aside();
    let outcome = body.returned(rt, to, message, acts);
    acts.put_behind(rest)?;
    outcome
}

// Makes the first send. Where the message comes back, it is the first again.
fn send_one<M: Tagged + Drop, R: Wait>(
    rt: &R,
    acts: &mut Acts<M>,
    links: &mut Links<M>,
) -> Result<(), Stop>
    requires first { acts.old.pending ≢ [] }
    requires threads { acts.old.threads ≡ length links.old.ends }
    requires fits { AllFit M.fits links.old.recv.family acts.old.pending }
    ensures ok { OnOk result (SendsFirst M.letter M.marked M.fits 1 links.old links.new acts.old acts.new) }
    ensures same { IsSending links.old links.new }
    ensures stop { IfErr result (HasStopped links.new) }
    ensures wait { IfErr result (StillWait M.letter links.old links.new acts.old acts.new) }
{
    let Some(Asked { to, message }) = acts.next_send() else {
        unreachable!()
    };
    match links.send(rt, to, message) {
        Ok(()) => Ok(()),
        Err(SendRefusal::Exited(message)) => Ok(acts.put_first(to, message)?),
        Err(SendRefusal::NoMemory(message)) => {
            acts.put_first(to, message)?;
            Err(Stop::NoMemory)
        }
        Err(SendRefusal::Spent(message)) => {
            acts.put_first(to, message)?;
            Err(Stop::Spent {
                to,
                count: links.next_number(to),
            })
        }
    }
}

// Makes the first so many sends, which go to one thread, in one run. Where it comes back, its messages are the first again.
fn send_some<M: Tagged + Drop, R: Wait>(
    rt: &R,
    alloc: Global,
    to: u32,
    count: usize,
    acts: &mut Acts<M>,
    links: &mut Links<M>,
) -> Result<(), Stop>
    requires to { (1 ≤ count) × (count ≤ first_to to acts.old.pending) }
    requires in_range { to < length links.old.ends }
    requires threads { acts.old.threads ≡ length links.old.ends }
    requires room { (d : _) → length (slice_index_or links.old.ends to d).sent + count ≤ most_sent }
    requires fits { AllFit M.fits links.old.recv.family acts.old.pending }
    ensures ok { OnOk result (SendsFirst M.letter M.marked M.fits count links.old links.new acts.old acts.new) }
    ensures same { IsSending links.old links.new }
    ensures stop { IfErr result (HasStopped links.new) }
    ensures wait { IfErr result (StillWait M.letter links.old links.new acts.old acts.new) }
{
    let run = gather(links.vector(alloc, count)?, to, count, acts, links);
    match links.send_run(rt, to, run) {
        Ok(()) => Ok(()),
        Err(SendRefusal::Exited(run)) => Ok(put_all_first(to, run, acts)?),
        Err(SendRefusal::NoMemory(run)) => {
            put_all_first(to, run, acts)?;
            Err(Stop::NoMemory)
        }
        Err(SendRefusal::Spent(_)) => unreachable!(),
    }
}

// The messages of the first so many sends, each marked with the number that it gets.
fn gather<M: Tagged + Drop>(
    mut run: Vec<M>,
    to: u32,
    count: usize,
    acts: &mut Acts<M>,
    links: &Links<M>,
) -> Vec<M>
    requires run { (run.items ≡ []) × (count ≤ vec_capacity run) }
    requires to { (to < length links.now.ends) × (count ≤ first_to to acts.old.pending) }
    requires room { (d : _) → length (slice_index_or links.now.ends to d).sent + count ≤ most_sent }
    requires fits { AllFit M.fits links.now.recv.family acts.old.pending }
    ensures count { length result.items ≡ count }
    ensures gathered { (d : _) → Gathers M.letter M.marked to links.now.thread
        (length (slice_index_or links.now.ends to d).sent) result.items acts.old acts.new }
    ensures names { (d : _) → NamedFrom M.letter M.tag_of links.now.thread
        (length (slice_index_or links.now.ends to d).sent) result.items }
    ensures fits { All (FitsRing M.fits to links.now.recv.family) result.items }
{
    let first = links.next_number(to);
    for place in 0..count {
        let Some(Asked { to: _, mut message }) = acts.next_send() else {
            unreachable!()
        };
        message.mark(links.thread, first + place as u64);
        run.push_reserved(message);
    }
    run
}

// These messages are to be sent before all others, in their order.
fn put_all_first<M: Tagged + Drop>(
    to: u32,
    mut run: Vec<M>,
    acts: &mut Acts<M>,
) -> Result<(), NoMemory>
    requires { to < acts.old.threads }
    ensures first { OnOk result (PutsFirst M.letter M.marked M.fits to run.items acts.old acts.new) }
    ensures kept { OnErr result ((before : List (Post M)) × (acts.new.pending ≡ before ++ acts.old.pending)) }
{
    for _ in 0..run.len() {
        let Some(message) = run.pop() else {
            unreachable!()
        };
        acts.put_first(to, message)?;
    }
    Ok(())
}
