//! What a round measures: the figures and the place of each light thread.
ghost use Rattle.std.specs.Prelude.{◌≡◌, ◌<◌, ◌≤◌, length, All, IfOk};
ghost use Rattle.lw_load.specs.LoadEnds.{most_threads};
ghost use Rattle.lw_rounds.specs.Measures.{HasOnlyLooked, HasRead, LooksAt, MeasuresRows, told_of, unmeasured};

use lw_base::{NoMemory, Row};
use lw_load::{Figures, LoadReader};
use lw_place::{DeskSeat, Place};
use std::alloc::Global;
use std::marker::Model;
use std::sync::Wait;

// The reader of the threads' figures, with what was measured of each in the round before, and the sums that were told since.
#[derive(Drop)]
pub(crate) struct Meter {
    reader: LoadReader,
    measured: Vec<Figures>,
    told: Vec<Option<Figures>>,
}

impl Model for Meter {
    ghost use Rattle.std.specs.Prelude.{◌≡◌, length};
    ghost use Rattle.lw_rounds.specs.Measures.{MeterEnd};

    ghost Value = { MeterEnd };

    ghost view = { λ m. record { cells = m.reader; measured = m.measured.items; told = m.told.items } };

    ghost invariant = { λ m. (length m.measured.items ≡ length m.reader) × (length m.told.items ≡ length m.reader) };
}

impl Meter {
    // Of so many threads, of which nothing was measured.
    pub(crate) fn new(alloc: Global, reader: LoadReader, threads: u32) -> Result<Meter, NoMemory>
        requires count { threads ≡ length reader }
        ensures { IfOk result (λ m. m ≡ unmeasured reader) }
    {
        let measured = vec![in alloc; Figures { busy: 0, idle: 0 }; threads as usize]?;
        let told = vec![in alloc; None; threads as usize]?;
        Ok(Meter {
            reader,
            measured,
            told,
        })
    }

    // Notes the sums of a thread, which the next round measures by.
    pub(crate) fn tell(&mut self, thread: u32, sums: Figures)
        requires { thread < length self.old.cells }
        ensures { self.new ≡ told_of thread sums self.old }
    {
        self.told[thread as usize] = Some(sums);
    }

    // The rows of a round: of each thread that a look found in a list, in ascending number.
    pub(crate) fn measure<R: Wait>(
        &mut self,
        rt: &R,
        alloc: Global,
        desk: &mut DeskSeat,
    ) -> Result<Vec<Row>, NoMemory>
        requires places { desk.old.places.threads ≡ length self.old.cells }
        requires few { length self.old.cells ≤ most_threads }
        ensures looked { HasOnlyLooked desk.old desk.new }
        ensures rows { IfOk result (λ rows. MeasuresRows self.old self.new desk.old desk.new rows.items) }
        ensures read { HasRead self.old.cells self.new.cells }
    {
        let mut rows = Vec::new(alloc);
        for thread in 0..self.measured.len() as u32 {
            if let Some(row) = self.look(rt, thread, desk) {
                rows.push(row)?;
            }
        }
        Ok(rows)
    }

    // Measures a thread, and looks where it stands. Its row, if it has one.
    fn look<R: Wait>(&mut self, rt: &R, thread: u32, desk: &mut DeskSeat) -> Option<Row>
        requires thread { thread < length self.old.cells }
        requires places { thread < desk.old.places.threads }
        ensures { LooksAt thread self.old self.new desk.old desk.new result }
    {
        let published = self.reader.read(rt, thread);
        let at = thread as usize;
        let last = self.measured[at];
        let now = self.told[at].unwrap_or(published);
        self.measured[at] = now;
        self.told[at] = None;
        let Place::List(reactor) = desk.look(thread) else {
            return None;
        };
        Some(Row {
            thread,
            reactor,
            busy: now.busy.saturating_sub(last.busy),
            idle: now.idle.saturating_sub(last.idle),
        })
    }
}
