//! The registry of devices.
ghost use Rattle.std.specs.Prelude.{◌≡◌, ◌+◌, ◌≤◌, IfOk, length};
ghost use Rattle.lw_latch.specs.DeviceWord.{most_seats};
ghost use Rattle.lw_device.specs.Rows.{seat_of};
ghost use Rattle.lw_device_tests.specs.Registries.{AreRowsOfOne, FoundAndFired, HasBegun, latch_of, row_of};

use lw_base::NoMemory;
use lw_device::{
    Already, DeviceEnd, DeviceRow, Firing, GetRefusal, Hold, Look, devices, settle_devices,
};
use std::alloc::Global;
use std::test::Fail;

// The rows of a registry with one device.
fn new_rows(alloc: Global, threads: u32) -> Result<Vec<DeviceRow>, NoMemory>
    requires { (1 ≤ threads) × (threads ≤ most_seats) }
    ensures { IfOk result (λ v. AreRowsOfOne threads v.items) }
{
    devices(alloc, 1, threads)
}

pub fn one_row(alloc: Global) -> Result<DeviceRow, NoMemory>
    ensures latch { IfOk result (λ r. (latch_of r).seats ≡ 1) }
    ensures row { IfOk result (λ r. r ≡ row_of (latch_of r) 0) }
{
    let mut rows = new_rows(alloc, 1)?;
    Ok(rows.pop().unwrap())
}

// Settles a registry of one device by the one row that is left.
fn settle_one(alloc: Global, row: DeviceRow) -> Result<Vec<DeviceEnd>, NoMemory>
    requires seat { length row.seats ≡ 1 }
    requires all { (seat_of row 0).view.seats ≡ (seat_of row 0).latch.seats }
    requires fired { (seat_of row 0).view.fired ≡ 1 }
{
    let mut rows = Vec::new(alloc);
    rows.push(row)?;
    settle_devices(alloc, rows)
}

#[test]
fn one_row_gets_destroys_and_unregisters(rt: HostRuntime) -> Result<(), Fail> {
    let mut row = one_row(rt.alloc())?;
    assert!(rt; row.get(0) == Ok(0) && row.get(1) == Err(GetRefusal::NoDevice));
    row.destroy(0);
    assert!(rt; row.unregister(0) == Ok(1));
    assert!(rt; row.callback_due(0) == Firing::Fired);
    let ends = settle_one(rt.alloc(), row)?;
    let wanted = [DeviceEnd {
        given: 1,
        thread: 0,
        callbacks: 1,
    }];
    assert!(rt; ends.as_slice() == wanted.as_slice());
    Ok(())
}

pub fn two_rows(alloc: Global) -> Result<(DeviceRow, DeviceRow), NoMemory>
    ensures latch { IfOk result (λ r. (latch_of r.0).seats ≡ 2) }
    ensures rows { IfOk result (λ r. (r.0 ≡ row_of (latch_of r.0) 0) × (r.1 ≡ row_of (latch_of r.0) 1)) }
{
    let mut rows = new_rows(alloc, 2)?;
    let b = rows.pop().unwrap();
    let a = rows.pop().unwrap();
    Ok((a, b))
}

#[test]
fn a_row_knows_what_the_one_that_it_took_in_had_begun(rt: HostRuntime) -> Result<(), Fail> {
    let (mut a, mut b) = two_rows(rt.alloc())?;
    assert!(rt; b.unregister(0) == Ok(0));
    assert!(rt; b.callback_due(0) == Firing::Fired);
    a.take_in(b);
    assert!(rt; a.unregister(0) == Err(Already));
    let ends = settle_one(rt.alloc(), a)?;
    let wanted = [DeviceEnd {
        given: 0,
        thread: 1,
        callbacks: 1,
    }];
    assert!(rt; ends.as_slice() == wanted.as_slice());
    Ok(())
}

#[test]
fn a_row_that_took_in_all_others_is_told_how_many_were_given(rt: HostRuntime) -> Result<(), Fail> {
    let (mut a, mut b) = two_rows(rt.alloc())?;
    assert!(rt; b.get(0) == Ok(0));
    b.destroy(0);
    a.take_in(b);
    assert!(rt; a.unregister(0) == Ok(1));
    assert!(rt; a.callback_due(0) == Firing::Fired);
    let ends = settle_one(rt.alloc(), a)?;
    let wanted = [DeviceEnd {
        given: 1,
        thread: 0,
        callbacks: 1,
    }];
    assert!(rt; ends.as_slice() == wanted.as_slice());
    Ok(())
}

// Settles a registry of one device by two rows: `finder` found it shut, and where one of them began it has fired.
fn settle_two(
    alloc: Global,
    finder: DeviceRow,
    other: DeviceRow,
) -> Result<Vec<DeviceEnd>, NoMemory>
    requires { FoundAndFired finder other }
{
    let mut rows = Vec::new(alloc);
    rows.push(finder)?;
    rows.push(other)?;
    settle_devices(alloc, rows)
}

#[test]
fn rows_settle_of_which_one_found_the_device_shut(rt: HostRuntime) -> Result<(), Fail> {
    let (mut a, mut b) = two_rows(rt.alloc())?;
    assert!(rt; b.unregister(0) == Ok(0));
    assert!(rt; a.look(0) == Look::Shut);
    assert!(rt; b.callback_due(0) == Firing::Fired);
    let ends = settle_two(rt.alloc(), a, b)?;
    let wanted = [DeviceEnd {
        given: 0,
        thread: 1,
        callbacks: 1,
    }];
    assert!(rt; ends.as_slice() == wanted.as_slice());
    Ok(())
}

fn three_rows(alloc: Global) -> Result<(DeviceRow, DeviceRow, DeviceRow), NoMemory>
    ensures { IfOk result (λ r. (r.0 ≡ row_of (latch_of r.0) 0) × (r.1 ≡ row_of (latch_of r.0) 1)
        × (r.2 ≡ row_of (latch_of r.0) 2)) }
{
    let mut rows = new_rows(alloc, 3)?;
    let c = rows.pop().unwrap();
    let b = rows.pop().unwrap();
    let a = rows.pop().unwrap();
    Ok((a, b, c))
}

// The word that a row which began is told where the device isn't due.
fn word_told(row: &mut DeviceRow) -> Option<u64>
    requires one { length row.old.seats ≡ 1 }
    requires began { HasBegun (seat_of row.old 0) }
    ensures one { length row.new.seats ≡ 1 }
    ensures began { HasBegun (seat_of row.new 0) }
{
    match row.callback_due(0) {
        Firing::Fired => None,
        Firing::NotYet { seen } => Some(seen),
    }
}

#[test]
fn a_channel_and_a_visit_keep_the_device(rt: HostRuntime) -> Result<(), Fail> {
    let (mut a, mut b, mut c) = three_rows(rt.alloc())?;
    assert!(rt; a.get(0) == Ok(0) && b.look(0) == Look::Usable);
    assert!(rt; b.begin_visit(0) == Hold::Held);
    assert!(rt; c.unregister(0) == Ok(1));
    assert!(rt; word_told(&mut c) == Some(327_682));
    a.destroy(0);
    assert!(rt; word_told(&mut c) == Some(327_681));
    b.end_visit(0);
    assert!(rt; word_told(&mut c).is_none());
    assert!(rt; a.get(0) == Err(GetRefusal::Shut) && b.unregister(0) == Err(Already));
    assert!(rt; b.look(0) == Look::Shut && a.begin_visit(0) == Hold::Shut);
    assert!(rt; a.thread() == 0 && c.thread() == 2 && a.count() == 1);
    Ok(())
}
