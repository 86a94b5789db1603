//! The tokens of for-each calls.
ghost use Rattle.std.specs.Prelude.{◌≡◌, length};
ghost use Rattle.lw_device.specs.Rows.{seat_of};

use crate::channels::{one_set, two_sets};
use lw_base::NoMemory;
use lw_channel::{ChannelSet, Got};
use lw_visit::{Mark, Next, VisitRefusal, finish_visit, start_cast, start_visit};
use std::alloc::Global;
use std::test::Fail;

// A visit of four threads, of which the thread 1 runs no more and the thread 2 has the set `holder`.
fn visit_past_one(
    alloc: Global,
    holder: &mut ChannelSet,
    other: &ChannelSet,
) -> Result<Option<Vec<Mark>>, VisitRefusal>
    requires device { length holder.old.row.seats ≡ 1 }
    requires visit { (seat_of holder.old.row 0).view.visit ≡ 0 }
{
    let token = start_visit(alloc, holder, 2, 1, 0, 4)?;
    let Next::To(_, token) = token.step(0, other) else {
        return Ok(None);
    };
    let Next::To(_, token) = token.skip(1) else {
        return Ok(None);
    };
    let Next::To(_, token) = token.step(2, holder) else {
        return Ok(None);
    };
    let Next::Complete(token) = token.step(3, other) else {
        return Ok(None);
    };
    Ok(Some(finish_visit(holder, token)))
}

#[test]
fn a_visit_gathers_the_marks_of_those_that_hold_the_device(rt: HostRuntime) -> Result<(), Fail> {
    let (mut a, b) = two_sets(rt.alloc())?;
    assert!(rt;
        a.get(0)
            == Ok(Got {
                ordinal: 0,
                made: true
            })
    );
    a.note_submit(0);
    let wanted = [Mark {
        thread: 2,
        submitted: 1,
    }];
    let marks = visit_past_one(rt.alloc(), &mut a, &b)?;
    assert!(rt; marks.as_deref() == Some(wanted.as_slice()));
    Ok(())
}

#[test]
fn a_visit_of_one_thread_is_complete_after_its_step(rt: HostRuntime) -> Result<(), Fail> {
    let mut set = one_set(rt.alloc())?;
    let token = start_visit(rt.alloc(), &mut set, 0, 5, 0, 1)?;
    assert!(rt; token.origin() == 0 && token.op() == 5 && token.device() == 0);
    let Next::Complete(token) = token.step(0, &set) else {
        return Err(Fail::new("the token is not complete"));
    };
    assert!(rt; finish_visit(&mut set, token).is_empty());
    Ok(())
}

#[test]
fn a_shut_device_refuses_a_visit(rt: HostRuntime) -> Result<(), Fail> {
    let mut set = one_set(rt.alloc())?;
    assert!(rt; set.unregister(0) == Ok(0));
    let refused = start_visit(rt.alloc(), &mut set, 0, 5, 0, 1);
    assert!(rt; matches!(refused, Err(VisitRefusal::Shut)));
    Ok(())
}

// A cast of five threads, of which the thread 1 runs no more.
fn cast_past_one(alloc: Global) -> Result<Option<Vec<u32>>, NoMemory> {
    let token = start_cast(alloc, 3, 0, 5)?;
    let Next::To(_, token) = token.step(0) else {
        return Ok(None);
    };
    let Next::To(_, token) = token.skip(1) else {
        return Ok(None);
    };
    let Next::To(_, token) = token.step(2) else {
        return Ok(None);
    };
    let Next::To(_, token) = token.step(3) else {
        return Ok(None);
    };
    let Next::Complete(token) = token.step(4) else {
        return Ok(None);
    };
    Ok(Some(token.results()))
}

#[test]
fn a_cast_gathers_who_ran_it(rt: HostRuntime) -> Result<(), Fail> {
    let ran = cast_past_one(rt.alloc())?;
    assert!(rt; ran.as_deref() == Some([0, 2, 3, 4].as_slice()));
    Ok(())
}

#[test]
fn a_cast_over_one_thread_is_complete_after_its_step(rt: HostRuntime) -> Result<(), Fail> {
    let token = start_cast(rt.alloc(), 0, 0, 1)?;
    assert!(rt; token.origin() == 0 && token.op() == 0);
    let Next::Complete(token) = token.step(0) else {
        return Err(Fail::new("the token is not complete"));
    };
    assert!(rt; token.results().as_slice() == [0].as_slice());
    Ok(())
}
