//! A thread's pass.
ghost use Rattle.std.specs.Prelude.{◌≡◌, ◌+◌, ◌≤◌};
ghost use Rattle.crossbeam_utils.specs.Seq.{IsSamePass, cell_view};
ghost use Rattle.lw_load.specs.LoadEnds.{published};

use crate::cell::{LoadCell, Pass, Publishing};
use crate::figures::Figures;
use lw_base::Tick;
use std::alloc::Global;
use std::marker::Model;
use std::sync::{Arc, Wait};

/// The right to publish one thread's figures. It goes with the thread.
#[derive(Drop)]
pub struct LoadPass {
    pub(crate) cell: Arc<LoadCell, Global>,
    pub(crate) pass: Pass,
    pub(crate) thread: u32,
    pub(crate) last: Figures,
}

impl Model for LoadPass {
    ghost use Rattle.std.specs.Prelude.{◌≡◌};
    ghost use Rattle.std.specs.Arc.{arc_value};
    ghost use Rattle.crossbeam_utils.specs.Seq.{cell_view};
    ghost use Rattle.lw_load.specs.LoadEnds.{LoadEnd};

    ghost Value = { LoadEnd };

    ghost view = { λ p. record {
      cell = p.pass.table_id;
      thread = p.thread;
      busy = p.last.busy;
      idle = p.last.idle;
      stores = (cell_view p.pass).stores;
    } };

    ghost invariant = { λ p.
        (p.pass.table_id ≡ (arc_value p.cell).table.shared.table_id)
        × ((cell_view p.pass).writers ≡ 1)
        × ((cell_view p.pass).busy ≡ p.last.busy)
        × ((cell_view p.pass).idle ≡ p.last.idle) };
}

impl LoadPass {
    /// The thread's number.
    pub fn thread(&self) -> u32
        ensures { result ≡ self.now.thread }
    {
        self.thread
    }

    /// What this pass published last, zeros before the first.
    pub fn last(&self) -> Figures
        ensures { (result.busy ≡ self.now.busy) × (result.idle ≡ self.now.idle) }
    {
        self.last
    }

    /// Publishes how long the thread was busy and idle in all. Neither is less than this pass published last.
    ///
    /// It is one store of both, and none where the pair is the last one again.
    pub fn publish<R: Wait>(&mut self, rt: &R, busy: Tick, idle: Tick)
        requires busy { self.old.busy ≤ busy }
        requires idle { self.old.idle ≤ idle }
        ensures { self.new ≡ published busy idle self.old }
    {
        if busy != self.last.busy || idle != self.last.idle {
            store(rt, &self.cell, &mut self.pass, busy, idle);
            self.last = Figures { busy, idle };
        }
    }
}

// The cell holds this pair from now on.
fn store<R: Wait>(rt: &R, cell: &LoadCell, pass: &mut Pass, busy: Tick, idle: Tick)
    requires cell { pass.old.table_id ≡ cell.now.table.shared.table_id }
    requires own { (cell_view pass.old).writers ≡ 1 }
    requires busy { (cell_view pass.old).busy ≤ busy }
    requires idle { (cell_view pass.old).idle ≤ idle }
    ensures cell { IsSamePass pass.old pass.new }
    ensures last { cell_view pass.new ≡ record (cell_view pass.old) {
      busy = busy;
      idle = idle;
      stores = (cell_view pass.old).stores + 1;
    } }
{
    cell.swap_as::<Publishing, R>(rt, pass, [busy, idle]);
}
