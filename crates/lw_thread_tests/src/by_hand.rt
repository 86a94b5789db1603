//! Acts, and a body that is driven by hand.
use crate::players::{Note, Player, note_of, player_of};
use crate::plays::Plan;
use lw_base::NoMemory;
use lw_poller::{PollerId, PollerRefusal};
use lw_thread::{Acts, Body, Work};
use std::alloc::{AllocError, Global};
use std::sync::Wait;
use std::test::Fail;

// The first send that was asked for: to whom, and its value. It is taken out.
fn told(acts: &mut Acts<Note>) -> Option<(u32, u32)> {
    let asked = acts.next_send()?;
    Some((asked.to, asked.message.value))
}

// Whether these sends were asked for, to whom and of which value, and no others. They are taken out.
fn told_are(acts: &mut Acts<Note>, wanted: &[(u32, u32)]) -> bool {
    let mut all = true;
    for send in wanted {
        all = told(acts) == Some(*send) && all;
    }
    told(acts).is_none() && all
}

#[test]
fn acts_keep_what_is_asked_for(rt: HostRuntime) -> Result<(), Fail> {
    let mut acts: Acts<Note> = Acts::new(rt.alloc(), 2)?;
    acts.send(1, note_of(7))?;
    acts.send(0, note_of(8))?;
    acts.start(1)?;
    acts.start(0)?;
    assert!(rt; told_are(&mut acts, &[(1, 7), (0, 8)]));
    assert!(rt; acts.take_started().as_slice() == [1, 0].as_slice());
    assert!(rt; acts.take_started().is_empty());
    Ok(())
}

#[test]
fn acts_count_what_was_run(rt: HostRuntime) -> Result<(), Fail> {
    let mut acts: Acts<Note> = Acts::new(rt.alloc(), 3)?;
    assert!(rt; acts.threads() == 3 && acts.ran() == 0 && !acts.asked_end());
    acts.count_run();
    acts.count_run();
    acts.ask_end();
    assert!(rt; acts.threads() == 3 && acts.ran() == 2 && acts.asked_end());
    Ok(())
}

#[test]
fn acts_have_pollers(rt: HostRuntime) -> Result<(), Fail> {
    let mut acts: Acts<Note> = Acts::new(rt.alloc(), 1)?;
    assert!(rt; acts.has_no_poller());
    assert!(rt; acts.add_active() == Ok(PollerId(0)) && acts.add_timed(5, 10) == Ok(PollerId(1)));
    assert!(rt; acts.pause(PollerId(1)) == Ok(()) && acts.resume(PollerId(1), 3) == Ok(()));
    assert!(rt; acts.pause(PollerId(2)) == Err(PollerRefusal::Unknown));
    assert!(rt; acts.remove(PollerId(0)) == Ok(()) && !acts.has_no_poller());
    assert!(rt; acts.remove(PollerId(1)) == Ok(()) && acts.has_no_poller());
    Ok(())
}

// The one poller of a body is called, with nothing asked for before.
fn ticked<R: Wait>(
    rt: &R,
    alloc: Global,
    body: &mut Player,
) -> Result<(Work, Acts<Note>), NoMemory> {
    let mut acts = Acts::new(alloc, 2)?;
    let Ok(poller) = acts.add_active() else {
        return Err(AllocError);
    };
    let work = body.tick(rt, poller, 0, &mut acts)?;
    Ok((work, acts))
}

// A body runs a message, with nothing asked for before.
fn run_alone<R: Wait>(
    rt: &R,
    alloc: Global,
    body: &mut Player,
    value: u32,
) -> Result<Acts<Note>, NoMemory> {
    let mut acts = Acts::new(alloc, 2)?;
    body.run(rt, note_of(value), 0, &mut acts)?;
    Ok(acts)
}

// A body is handed back a message that was to go to thread 1.
fn handed_back<R: Wait>(
    rt: &R,
    alloc: Global,
    body: &mut Player,
    value: u32,
) -> Result<Acts<Note>, NoMemory> {
    let mut acts = Acts::new(alloc, 2)?;
    body.returned(rt, 1, note_of(value), &mut acts)?;
    Ok(acts)
}

#[test]
fn a_body_is_called_by_hand(rt: HostRuntime) -> Result<(), Fail> {
    let mut body = player_of(rt.alloc(), Plan::Mix, 5);
    let (work, mut acts) = ticked(&rt, rt.alloc(), &mut body)?;
    assert!(rt; work == Work::Busy && acts.asked_end() && acts.has_no_poller());
    assert!(rt; told_are(&mut acts, &[(0, 7), (1, 8), (1, 9), (0, 10)]));
    let mut acts = run_alone(&rt, rt.alloc(), &mut body, 5)?;
    assert!(rt; acts.asked_end() && told_are(&mut acts, &[]));
    let mut acts = handed_back(&rt, rt.alloc(), &mut body, 9)?;
    assert!(rt; !acts.asked_end() && told_are(&mut acts, &[(0, 100)]));
    assert!(rt; body.heard.as_slice() == [5].as_slice() && body.back.as_slice() == [9].as_slice());
    Ok(())
}
