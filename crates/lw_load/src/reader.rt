//! The one reader of all threads' figures.
ghost use Rattle.std.specs.Prelude.{◌≡◌, ◌+◌, ◌<◌, ◌≤◌, length, slice_index_or, slice_set};
ghost use Rattle.lw_load.specs.LoadEnds.{Known, once_more};

use crate::cell::{LoadCell, Pass, Reading};
use crate::figures::Figures;
use std::alloc::Global;
use std::marker::Model;
use std::sync::{Arc, Wait};

/// The reader's view of one thread's cell.
#[derive(Drop)]
pub struct Row {
    pub(crate) cell: Arc<LoadCell, Global>,
    pub(crate) pass: Pass,
}

impl Model for Row {
    ghost use Rattle.std.specs.Prelude.{◌≡◌};
    ghost use Rattle.std.specs.Arc.{arc_value};
    ghost use Rattle.crossbeam_utils.specs.Seq.{cell_view};
    ghost use Rattle.lw_load.specs.LoadEnds.{Known};

    ghost Value = { Known };

    ghost view = { λ r. record {
      cell = r.pass.table_id;
      busy = (cell_view r.pass).busy;
      idle = (cell_view r.pass).idle;
      loads = (cell_view r.pass).loads;
    } };

    ghost invariant = { λ r.
        (r.pass.table_id ≡ (arc_value r.cell).table.shared.table_id)
        × ((cell_view r.pass).writers ≡ 0) };
}

impl Row {
    // The pair in the cell. It is one load.
    fn read<R: Wait>(&mut self, rt: &R) -> Figures
        ensures found { self.new ≡ record self.old {
          busy = result.busy;
          idle = result.idle;
          loads = self.old.loads + 1;
        } }
        ensures least { (self.old.busy ≤ result.busy) × (self.old.idle ≤ result.idle) }
    {
        let pair = self.cell.load_as::<Reading, R>(rt, &mut self.pass);
        Figures {
            busy: pair[0],
            idle: pair[1],
        }
    }
}

/// Reads the figures of all threads. There is one reader.
#[derive(Drop)]
pub struct LoadReader {
    pub(crate) rows: Vec<Row>,
}

impl Model for LoadReader {
    ghost use Rattle.std.specs.Prelude.{List};
    ghost use Rattle.lw_load.specs.LoadEnds.{Known};

    ghost Value = { List Known };

    ghost view = { λ r. r.rows.items };
}

impl LoadReader {
    /// A thread's figures: what this call's one load of the thread's cell found. The thread is one of those that the cells
    /// were made for.
    ///
    /// That is a pair that was published, or zeros, and neither figure is ever less than this reader found before.
    pub fn read<R: Wait>(&mut self, rt: &R, thread: u32) -> Figures
        requires { thread < length self.old }
        ensures threads { length self.new ≡ length self.old }
        ensures found { (r : Known) → self.new ≡ slice_set self.old thread (once_more (slice_index_or self.old thread r) result.busy result.idle) }
        ensures least { (r : Known) →
            ((slice_index_or self.old thread r).busy ≤ result.busy)
            × ((slice_index_or self.old thread r).idle ≤ result.idle) }
    {
        let row = &mut self.rows[thread as usize];
        row.read(rt)
    }
}
