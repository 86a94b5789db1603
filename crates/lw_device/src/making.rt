//! How a registry is made.
ghost use Rattle.std.specs.Prelude.{◌≡◌, ℕ, ◌<◌, ◌≤◌, [], ◌∷◌, ◌++◌, length, slice_index_or, IfOk};
ghost use Rattle.lw_latch.specs.DeviceWord.{most_seats};
ghost use Rattle.lw_latch.specs.DeviceEnds.{SeatEnd};
ghost use Rattle.lw_device.specs.Rows.{most_devices, Row, AreNewRows};

use crate::row::DeviceRow;
use lw_base::NoMemory;
use lw_latch::{DeviceSeat, device_latch};
use std::alloc::Global;

/// The registry of 1 to 16 devices for 1 to 127 threads: a row for each thread, by its number.
pub fn devices(alloc: Global, count: u32, threads: u32) -> Result<Vec<DeviceRow>, NoMemory>
    requires count { (1 ≤ count) × (count ≤ most_devices) }
    requires threads { (1 ≤ threads) × (threads ≤ most_seats) }
    ensures { IfOk result (λ v. AreNewRows count threads v.items) }
{
    let mut rows = empty_rows(alloc, threads)?;
    for _ in 0..count {
        add_device(&mut rows, device_latch(alloc, threads)?)?;
    }
    Ok(rows)
}

// Rows of a registry without devices.
fn empty_rows(alloc: Global, threads: u32) -> Result<Vec<DeviceRow>, NoMemory>
    ensures { IfOk result (λ v. AreNewRows 0 threads v.items) }
{
    let mut rows = Vec::new(alloc);
    for thread in 0..threads {
        rows.push(DeviceRow {
            thread,
            seats: Vec::new(alloc),
        })?;
    }
    Ok(rows)
}

// One more device, of which each row gets the seat of its number.
fn add_device(rows: &mut [DeviceRow], seats: Vec<DeviceSeat>) -> Result<(), NoMemory>
    requires { length rows.old ≡ length seats.items }
    ensures count { IfOk result (λ _. length rows.new ≡ length rows.old) }
    ensures each { IfOk result (λ _. (t : ℕ) (r : Row) (e : SeatEnd) → t < length rows.old →
        slice_index_or rows.new t r ≡ record (slice_index_or rows.old t r) {
          seats =
              (slice_index_or rows.old t r).seats ++ slice_index_or seats.items t e ∷ [];
        }) }
{
    let mut thread = 0;
    for seat in seats {
        rows[thread].add(seat)?;
        thread += 1;
    }
    Ok(())
}
