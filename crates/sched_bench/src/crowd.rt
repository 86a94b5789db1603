//! The rows of a busy round.
ghost use Rattle.std.specs.Prelude.{◌≡◌, ◌<◌, length, All, IfOk};

use lw_base::NoMemory;
use lw_sched::Row;
use std::alloc::Global;

/// So many threads, half busy each and spread over 16 reactors: each reactor is too busy, so that every thread looks for
/// another.
pub fn crowd(alloc: Global, count: u32) -> Result<Vec<Row>, NoMemory>
    ensures count { IfOk result (λ rows. length rows.items ≡ count) }
    ensures there { IfOk result (λ rows. All (λ w. w.reactor < 16) rows.items) }
{
    let mut rows = Vec::new(alloc);
    for thread in 0..count {
        rows.push(Row {
            thread,
            reactor: thread % 16,
            busy: 1_000_000,
            idle: 1_000_000,
        })?;
    }
    Ok(rows)
}
