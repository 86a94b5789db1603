//! The latch of a ring.
ghost use Rattle.std.specs.Prelude.{◌≡◌, ◌+◌, ◌<◌, ◌≤◌, IfOk, []};
ghost use Rattle.lw_latch.specs.RingWord.{first_view};
ghost use Rattle.lw_latch.specs.RingEnds.{new_sender};

use lw_base::NoMemory;
use lw_latch::{Closing, Enter, LatchRecv, LatchSend, ring_latch};
use std::alloc::Global;
use std::test::Fail;

// One message, if the latch lets it in.
fn finish_one(end: &mut LatchSend) -> Enter
    requires { (end.old.view.inside ≡ 0) × (end.old.view.finished < 1000) }
    ensures outside { end.new.view.inside ≡ 0 }
    ensures finished { end.new.view.finished ≤ end.old.view.finished + 1 }
    ensures same { (end.new.latch ≡ end.old.latch) × (end.new.view.parts ≡ end.old.view.parts) }
{
    let answer = end.enter();
    if answer == Enter::Inside {
        end.finish(1);
    }
    answer
}

#[test]
fn it_closes_at_what_was_finished_and_lets_nobody_in_then(rt: HostRuntime) -> Result<(), Fail> {
    let (mut recv, mut ends) = ring_latch(rt.alloc(), 2)?;
    let mut b = ends.pop().unwrap();
    let mut a = ends.pop().unwrap();
    assert!(rt; finish_one(&mut a) == Enter::Inside);
    assert!(rt; finish_one(&mut b) == Enter::Inside);
    assert!(rt; finish_one(&mut a) == Enter::Inside);
    assert!(rt; recv.close(2) == Closing::NotYet { seen: 393_216 });
    assert!(rt; recv.close(3) == Closing::Closed);
    assert!(rt; finish_one(&mut b) == Enter::Closed);
    Ok(())
}

// A latch with one sender.
fn one(alloc: Global) -> Result<(LatchRecv, LatchSend), NoMemory>
    ensures recv { IfOk result (λ r. r.0.view ≡ record first_view { parts = 126 }) }
    ensures end { IfOk result (λ r. r.1 ≡ new_sender r.0.latch) }
{
    let (recv, mut ends) = ring_latch(alloc, 1)?;
    let end = ends.pop().unwrap();
    Ok((recv, end))
}

#[test]
fn it_does_not_close_while_a_sender_is_inside(rt: HostRuntime) -> Result<(), Fail> {
    let (mut recv, mut end) = one(rt.alloc())?;
    if end.enter() == Enter::Inside {
        assert!(rt; recv.close(0) == Closing::NotYet { seen: 1 });
        end.cancel();
    }
    assert!(rt; recv.close(0) == Closing::Closed);
    Ok(())
}

#[test]
fn with_all_senders_taken_in_the_word_is_known(rt: HostRuntime) -> Result<(), Fail> {
    let (mut recv, mut end) = one(rt.alloc())?;
    assert!(rt; finish_one(&mut end) == Enter::Inside);
    recv.take_in(end);
    assert!(rt; recv.learn() == 131_072);
    Ok(())
}

#[test]
fn several_messages_are_finished_in_one_step(rt: HostRuntime) -> Result<(), Fail> {
    let (mut recv, mut end) = one(rt.alloc())?;
    if end.enter() == Enter::Inside {
        end.finish(5);
    }
    assert!(rt; recv.close(1) == Closing::NotYet { seen: 655_360 });
    assert!(rt; recv.close(5) == Closing::Closed);
    Ok(())
}
