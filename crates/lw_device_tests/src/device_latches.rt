//! The latch of a device.
ghost use Rattle.std.specs.Prelude.{◌≡◌, true, IfOk, IfSome};
ghost use Rattle.lw_latch.specs.DeviceWord.{idle_view};
ghost use Rattle.lw_latch.specs.DeviceEnds.{MayBeTakenIn};

use lw_base::NoMemory;
use lw_latch::{DeviceSeat, DeviceTotals, Firing, Give, Hold, Look, Shutting, device_latch};
use std::alloc::Global;
use std::test::Fail;

// Whether a seat that was never given a channel is given the one of this ordinal.
fn is_given(seat: &mut DeviceSeat, ordinal: u64) -> bool
    requires { (seat.old.view.channel ≡ 0) × (seat.old.view.gives ≡ 0) }
    ensures { result ≡ true → seat.new.view.channel ≡ 1 }
{
    match seat.give() {
        Give::Given { ordinal: found } => found == ordinal,
        Give::Shut => false,
    }
}

// The seats of a latch with three.
fn three(alloc: Global) -> Result<(DeviceSeat, DeviceSeat, DeviceSeat), NoMemory>
    ensures latch { IfOk result (λ r. (r.0.latch.seats ≡ 3) × (r.1.latch ≡ r.0.latch) × (r.2.latch ≡ r.0.latch)) }
    ensures new { IfOk result (λ r. (r.0.view ≡ idle_view 3 1) × (r.1.view ≡ idle_view 3 1) × (r.2.view ≡ idle_view 3 1)) }
{
    let mut seats = device_latch(alloc, 3)?;
    let c = seats.pop().unwrap();
    let b = seats.pop().unwrap();
    let a = seats.pop().unwrap();
    Ok((a, b, c))
}

#[test]
fn it_gives_until_it_is_shut_and_fires_once_when_nothing_is_open(
    rt: HostRuntime,
) -> Result<(), Fail> {
    let (mut a, mut b, mut c) = three(rt.alloc())?;
    assert!(rt; is_given(&mut a, 0) && is_given(&mut b, 1));
    assert!(rt; c.shut() == Shutting::Began { given: 2 });
    assert!(rt; c.give() == Give::Shut);
    assert!(rt; c.fire() == Firing::NotYet { seen: 589_826 });
    a.release();
    b.release();
    assert!(rt; c.fire() == Firing::Fired);
    assert!(rt; c.fire() == Firing::NotYet { seen: 720_896 });
    Ok(())
}

#[test]
fn a_visit_keeps_the_device_and_none_begins_once_it_is_shut(rt: HostRuntime) -> Result<(), Fail> {
    let (mut a, mut b, mut c) = three(rt.alloc())?;
    assert!(rt; a.hold() == Hold::Held && b.look() == Look::Usable);
    assert!(rt; c.shut() == Shutting::Began { given: 0 });
    assert!(rt; b.look() == Look::Shut && b.hold() == Hold::Shut);
    assert!(rt; b.shut() == Shutting::Already);
    assert!(rt; c.fire() == Firing::NotYet { seen: 65_537 });
    a.unhold();
    assert!(rt; c.fire() == Firing::Fired);
    Ok(())
}

// Gets a channel and gives it back: its ordinal, if the latch was open.
fn give_once(seat: &mut DeviceSeat) -> Option<u64>
    requires { (seat.old.view.channel ≡ 0) × (seat.old.view.gives ≡ 0) }
    ensures { (seat.new.latch ≡ seat.old.latch) × (seat.new.view.seats ≡ seat.old.view.seats) }
{
    match seat.give() {
        Give::Given { ordinal } => {
            seat.release();
            Some(ordinal)
        }
        Give::Shut => None,
    }
}

// Shuts the latch and fires: how many channels had been given, if it did both.
fn shut_and_fire(seat: &mut DeviceSeat) -> Option<u64>
    requires { (seat.old.view.channel ≡ 0) × (seat.old.view.visit ≡ 0) }
    ensures latch { IfSome result (λ _. seat.new.latch ≡ seat.old.latch) }
    ensures seats { IfSome result (λ _. seat.new.view.seats ≡ seat.old.view.seats) }
    ensures free { IfSome result (λ _. MayBeTakenIn seat.new) }
{
    let Shutting::Began { given } = seat.shut() else {
        return None;
    };
    match seat.fire() {
        Firing::Fired => Some(given),
        Firing::NotYet { seen: _ } => None,
    }
}

#[test]
fn a_seat_keeps_what_it_took_in_and_with_all_seats_the_word_is_known(
    rt: HostRuntime,
) -> Result<(), Fail> {
    let (mut a, mut b, mut c) = three(rt.alloc())?;
    assert!(rt; give_once(&mut a) == Some(0));
    assert!(rt; shut_and_fire(&mut b) == Some(1));
    c.take_in(b);
    assert!(rt; c.shut() == Shutting::Already);
    c.gather(a);
    let wanted = DeviceTotals {
        given: 1,
        began_by: 1,
        fired: true,
    };
    assert!(rt; c.learn() == wanted);
    Ok(())
}
