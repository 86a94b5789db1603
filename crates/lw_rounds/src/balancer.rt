//! All rounds of a run, the one that comes next, and when it is due.
ghost use Rattle.std.specs.Prelude.{◌≡◌, ◌↔◌, ◌<◌, ◌≤◌, IsTrue, None, Some, [], length, unwrap_or, All, IfOk, OnErr};
ghost use Rattle.lw_load.specs.LoadEnds.{most_threads};
ghost use Rattle.lw_rounds.specs.Measures.{HasOnlyLooked, told_of, unmeasured};
ghost use Rattle.lw_rounds.specs.Rounds.{AreNoted, AreRounds, Ascend, HasOnlyRead, IsDue, IsNotBefore, Makes, Sends, last_rows, masks_of};

use crate::meter::Meter;
use lw_base::{Items, Limits, NoMemory, Round, Row, Tick};
use lw_load::{Figures, LoadReader};
use lw_place::DeskSeat;
use lw_sched::{due, plan};
use std::alloc::Global;
use std::marker::Model;
use std::sync::Wait;

/// How many rounds a run has at most.
pub const MOST_ROUNDS: usize = 10_000;

/// The rounds of a run, with what the next one needs: who reads the threads' figures, and what was read in the round before.
#[derive(Drop)]
pub struct Balancer {
    meter: Meter,
    reactors: u32,
    masks: Vec<u32>,
    period: Tick,
    first: Option<Tick>,
    rounds: Vec<Round>,
    stands: Vec<u32>,
}

impl Model for Balancer {
    ghost use Rattle.std.specs.Prelude.{◌≡◌, ◌≤◌, length};
    ghost use Rattle.lw_rounds.specs.Rounds.{BalancerEnd, KeepsRounds};

    ghost Value = { BalancerEnd };

    ghost view = { λ b. record {
      reactors = b.reactors;
      masks = b.masks.items;
      period = b.period;
      meter = b.meter;
      first = b.first;
      rounds = b.rounds.items;
    } };

    ghost invariant = { λ b. KeepsRounds b.stands.items (record {
      reactors = b.reactors;
      masks = b.masks.items;
      period = b.period;
      meter = b.meter;
      first = b.first;
      rounds = b.rounds.items;
    }) };
}

impl Balancer {
    /// No rounds yet, of a run with 1 to 16 reactors, with one mask a thread, in order, and a period of at least one tick. The
    /// reader reads the figures of as many threads as there are masks: 127 at most. It fails for want of memory alone, and drops
    /// the reader then.
    pub fn new(
        alloc: Global,
        reader: LoadReader,
        reactors: u32,
        masks: Vec<u32>,
        period: Tick,
    ) -> Result<Balancer, NoMemory>
        requires reactors { (1 ≤ reactors) × (reactors ≤ 16) }
        requires masks { length masks.items ≡ length reader }
        requires few { length masks.items ≤ most_threads }
        requires period { 1 ≤ period }
        ensures { IfOk result (λ b. b ≡ record {
          reactors = reactors;
          masks = masks.items;
          period = period;
          meter = unmeasured reader;
          first = None;
          rounds = [];
        }) }
    {
        let meter = Meter::new(alloc, reader, masks.len() as u32)?;
        let stands = vec![in alloc; 0; masks.len()]?;
        Ok(Balancer {
            meter,
            reactors,
            masks,
            period,
            first: None,
            rounds: Vec::new(alloc),
            stands,
        })
    }

    /// Whether a round is due at a turn's first reading: a period or more past the last round, or past the first reading that
    /// was asked about where there was no round yet; and fewer than 10,000 were made. Readings don't go back.
    ///
    /// The first reading is noted, nothing else changes.
    pub fn is_due(&mut self, now: Tick) -> bool
        requires { IsNotBefore now self.old }
        ensures kept { self.new ≡ record self.old { first = Some (unwrap_or self.old.first now) } }
        ensures due { IsTrue result ↔ IsDue now self.new }
    {
        let first = self.first.unwrap_or(now);
        self.first = Some(first);
        let last = match self.rounds.last() {
            Some(round) => round.time,
            None => first,
        };
        due(last, self.period, now) && self.rounds.len() < MOST_ROUNDS
    }

    /// Tells a thread's busy and idle sums, as whoever polls the thread knows them: the next round goes by them, and no longer by
    /// what was published of it.
    pub fn tell(&mut self, thread: u32, sums: Figures)
        requires { thread < length self.old.masks }
        ensures { self.new ≡ record self.old { meter = told_of thread sums self.old.meter } }
    {
        self.meter.tell(thread, sums);
    }

    /// Makes a round that is due at this reading. Each thread's figures are read once, and the desk looks once where each
    /// stands; it is a desk of the places of the run's threads and reactors. Of a thread whose sums were told since the round
    /// before, those count.
    ///
    /// It fails for want of memory alone. Then there is no round more, though the desk may have looked, and figures may have
    /// been read.
    pub fn balance<R: Wait>(
        &mut self,
        rt: &R,
        alloc: Global,
        now: Tick,
        desk: &mut DeskSeat,
    ) -> Result<(), NoMemory>
        requires due { IsDue now self.old }
        requires threads { desk.old.places.threads ≡ length self.old.masks }
        requires reactors { desk.old.places.reactors ≡ self.old.reactors }
        ensures looked { HasOnlyLooked desk.old desk.new }
        ensures made { IfOk result (λ _. Makes now self.old self.new desk.old desk.new) }
        ensures none { OnErr result (HasOnlyRead self.old self.new) }
    {
        let rows = self.meter.measure(rt, alloc, desk)?;
        let masks = self.masks_of(alloc, rows.as_slice())?;
        let orders = plan(
            alloc,
            Limits::standard(),
            self.reactors,
            rows.as_slice(),
            masks.as_slice(),
        )?;
        self.rounds.push(Round {
            number: self.rounds.len() as u32 + 1,
            time: now,
            rows: Items::from_vec(rows),
            orders: Items::from_vec(orders),
        })?;
        if let Some(round) = self.rounds.last() {
            note_stands(&mut self.stands, round.rows.as_slice());
        }
        Ok(())
    }

    /// The rounds so far. Each order of a round sends a thread that has a row in it to another reactor of the run.
    pub fn rounds(&self) -> &[Round]
        ensures rounds { result.now ≡ self.now.rounds }
        ensures lawful { AreRounds self.now }
        ensures sends { All (λ x. All (Sends self.now.reactors x.rows) x.orders) self.now.rounds }
    {
        self.rounds.as_slice()
    }

    /// The reactor in whose list the last round found a thread that has a row in it: to it an order for the thread goes.
    pub fn stood(&self, thread: u32) -> u32
        requires { thread < length self.now.masks }
        ensures { All (λ w. w.thread ≡ thread → w.reactor ≡ result) (last_rows self.now.rounds) }
    {
        self.stands[thread as usize]
    }

    /// All rounds that were made.
    pub fn into_rounds(self) -> Vec<Round>
        ensures rounds { result.items ≡ self.rounds }
        ensures lawful { AreRounds self }
    {
        self.rounds
    }

    // The masks of these rows' threads, in order.
    fn masks_of(&self, alloc: Global, rows: &[Row]) -> Result<Vec<u32>, NoMemory>
        requires { All (λ w. w.thread < length self.now.masks) rows.now }
        ensures { IfOk result (λ v. v.items ≡ masks_of self.now.masks rows.now) }
    {
        let mut masks = Vec::new(alloc);
        for row in rows {
            masks.push(self.masks[row.thread as usize])?;
        }
        Ok(masks)
    }
}

// Notes of each row's thread that it stands where the row says.
fn note_stands(stands: &mut [u32], rows: &[Row])
    requires threads { All (λ w. w.thread < length stands.old) rows.now }
    requires ascend { Ascend 0 rows.now }
    ensures count { length stands.new ≡ length stands.old }
    ensures noted { AreNoted stands.new rows.now }
{
    for row in rows {
        stands[row.thread as usize] = row.reactor;
    }
}
