//! What is known of the devices once all rows are in one hand.
ghost use Rattle.std.specs.Prelude.{◌≡◌, ℕ, ◌+◌, ◌<◌, ◌≤◌, length, slice_index_or, All, IfOk, IfSome};
ghost use Rattle.lw_latch.specs.DeviceWord.{IsWhole};
ghost use Rattle.lw_latch.specs.DeviceEnds.{FiresOnlyWhatItBegan, HasAllSeats, SeatEnd, Settles};
ghost use Rattle.lw_device.specs.Rows.{Row, latches, seat_of, seats_of, gathered, AreOfOne, AreAllRows, IsEndOf};

use crate::row::DeviceRow;
use lw_base::{DeviceEnd, NoMemory};
use lw_latch::DeviceSeat;
use std::alloc::Global;

/// Settles the registry: what came of each device.
///
/// The rows, with those that they have taken in, are all, and each device has fired: some row fired it; or some row found it
/// shut or began, and each row that began it has fired it. Then the ordinals that all rows were given are the numbers below
/// `given`, each once; one row began, after that many were given, and it alone fired; from the step that began on no row found
/// the device open; the callback came once, and nothing is open. Without memory the rows are dropped.
pub fn settle_devices(alloc: Global, rows: Vec<DeviceRow>) -> Result<Vec<DeviceEnd>, NoMemory>
    requires { AreAllRows rows.items }
    ensures count { IfOk result (λ v. All (λ r. length v.items ≡ length r.seats) rows.items) }
    ensures each { IfOk result (λ v. (d : ℕ) (x : DeviceEnd) → d < length v.items →
        Settles (seats_of d rows.items) (slice_index_or v.items d x).given (slice_index_or v.items d x).thread
        (slice_index_or v.items d x).callbacks) }
{
    all_ends(alloc, join_rows(rows))
}

// One row that stands for all of these.
fn join_rows(rows: Vec<DeviceRow>) -> DeviceRow
    requires { AreOfOne rows.items }
    ensures whole { result ≡ gathered rows.items }
    ensures only_who_began { All FiresOnlyWhatItBegan result.seats → All (λ r. All FiresOnlyWhatItBegan r.seats) rows.items }
{
    let mut rows = rows.into_iter();
    let Some(mut whole) = rows.next() else {
        unreachable!()
    };
    for row in rows {
        whole.gather(row);
    }
    whole
}

// What came of each device, by the row that stands for all.
fn all_ends(alloc: Global, whole: DeviceRow) -> Result<Vec<DeviceEnd>, NoMemory>
    requires { All HasAllSeats whole.seats }
    ensures count { IfOk result (λ v. length v.items ≡ length whole.seats) }
    ensures each { IfOk result (λ v. (d : ℕ) (x : DeviceEnd) → d < length whole.seats →
        IsEndOf (seat_of whole d) (slice_index_or v.items d x)) }
{
    let DeviceRow { thread: _, seats } = whole;
    let mut ends = Vec::new(alloc);
    for seat in seats {
        ends.push(end_of(seat))?;
    }
    Ok(ends)
}

// What came of one.
fn end_of(mut seat: DeviceSeat) -> DeviceEnd
    requires { HasAllSeats seat }
    ensures { IsEndOf seat result }
{
    let totals = seat.learn();
    DeviceEnd {
        given: totals.given,
        thread: totals.began_by,
        callbacks: u32::from(totals.fired),
    }
}
