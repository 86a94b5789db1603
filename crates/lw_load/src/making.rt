//! How the cells of a run are made.
ghost use Rattle.std.specs.Prelude.{◌≡◌, ◌≤◌, IfOk};
ghost use Rattle.lw_load.specs.LoadEnds.{AreNew, most_threads, new_pass, not_read};

use crate::cell::{LoadCell, Making};
use crate::figures::Figures;
use crate::pass::LoadPass;
use crate::reader::{LoadReader, Row};
use lw_base::NoMemory;
use std::alloc::Global;
use std::sync::Arc;

/// The cells of 1 to 127 threads: a pass for each thread, in order, and their one reader. All figures start at 0.
/// It fails for want of memory alone.
pub fn loads(alloc: Global, threads: u32) -> Result<(Vec<LoadPass>, LoadReader), NoMemory>
    requires { (1 ≤ threads) × (threads ≤ most_threads) }
    ensures { IfOk result (λ r. AreNew threads r.0.items r.1) }
{
    let mut passes = Vec::new(alloc);
    let mut rows = Vec::new(alloc);
    for thread in 0..threads {
        let (pass, row) = load(alloc, thread)?;
        passes.push(pass)?;
        rows.push(row)?;
    }
    Ok((passes, LoadReader { rows }))
}

// One thread's cell.
fn load(alloc: Global, thread: u32) -> Result<(LoadPass, Row), NoMemory>
    ensures { IfOk result (λ r. (r.0 ≡ new_pass r.1.cell thread) × (r.1 ≡ not_read r.1.cell)) }
{
    let (cell, mut pass) = LoadCell::ruled(alloc, [0, 0])?;
    let cell = Arc::new(alloc, cell)?;
    let reading = cell.split_pass::<Making>(&mut pass);
    let row = Row {
        cell: Arc::try_clone(&cell)?,
        pass: reading,
    };
    let last = Figures { busy: 0, idle: 0 };
    let pass = LoadPass {
        cell,
        pass,
        thread,
        last,
    };
    Ok((pass, row))
}
