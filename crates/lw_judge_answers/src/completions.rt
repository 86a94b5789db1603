//! When what a client started was complete, while its lines are gone through in own order.
ghost use Rattle.std.specs.Prelude.{◌≡◌, ◌<◌, ◌^◌, ◌∷◌, [], ℕ, List, length, IfOk, OnOk, slice_set};
ghost use Rattle.lw_model.specs.declared.step.Step.{Step};
ghost use Rattle.lw_model.specs.Answers.{completes, is_did, is_completed, earlier_completed};
ghost use Rattle.lw_model.specs.Holding.{runs};
ghost use Rattle.lw_model.specs.Threads.{did_of, op_at};
ghost use Rattle.lw_judge_answers.specs.CompletionsAt.{AreCompletionsAt, last_where};

use crate::fits::is_started;
use crate::parts::did_at;
use lw_base::{NoMemory, What};
use lw_judge_threads::op_at;
use lw_model::{Did, Op, Record, Script, Step};
use std::alloc::Global;
use std::collections::HashMap;

/// When completions were run and `did` lines came. A time is one more than how many steps came before, and 0 is never.
#[derive(Drop)]
pub struct Completions {
    /// How many steps there were.
    steps: u64,
    /// When the completion of a visit was last run, by its op.
    visited: HashMap<u32, u64>,
    /// When the completion of a cast was last run, by its op.
    casted: HashMap<u32, u64>,
    /// When each `did` line of the thread came, by its place.
    dids: Vec<u64>,
}

impl Completions {
    /// Nothing came so far, of a thread with so many `did` lines.
    pub fn new(alloc: Global, dids: usize) -> Result<Self, NoMemory>
        ensures { IfOk result (AreCompletionsAt dids []) }
    {
        Ok(Completions {
            steps: 0,
            visited: HashMap::new(alloc),
            casted: HashMap::new(alloc),
            dids: vec![in alloc; 0u64; dids]?,
        })
    }

    /// Goes past one step more.
    pub fn step(&mut self, step: &Step) -> Result<(), NoMemory>
        ensures { (dids : ℕ) (past : List Step) → length past < 2 ^ 63 → AreCompletionsAt dids past self.old
            → OnOk result (AreCompletionsAt dids (step.now ∷ past) self.new) }
    {
        let now = self.steps.saturating_add(1);
        match step {
            Step::Did { place, .. } => set(&mut self.dids, *place as usize, now),
            Step::Called { .. } => {}
            Step::Ran { tag, .. } => match tag.what {
                What::Visited { op } => {
                    self.visited.insert(op, now)?;
                }
                What::Casted { op } => {
                    self.casted.insert(op, now)?;
                }
                _ => {}
            },
        }
        self.steps = now;
        Ok(())
    }

    /// Whether what the `did` line before that of this place started is complete.
    pub fn earlier_completed(&self, of: &Record, thread: usize, place: u64) -> bool
        ensures { (past : List Step) → AreCompletionsAt (length (did_of of.now thread)) past self.now
            → result ≡ earlier_completed of.now thread past place }
    {
        if place == 0 {
            return true;
        }
        let earlier = (place - 1) as usize;
        match did_at(of, thread, earlier) {
            Some(line) => self.is_completed(&of.script, thread, earlier, line),
            None => true,
        }
    }

    // Whether what a `did` line started, if it did, was completed since.
    fn is_completed(&self, script: &Script, thread: usize, place: usize, line: &Did) -> bool
        ensures { (dids : ℕ) (past : List Step) → place < dids → AreCompletionsAt dids past self.now
            → result ≡ is_completed script.now thread past place line.now }
    {
        !is_started(line.answer) || self.came(place) < self.completed(script, thread, line.op)
    }

    // When the `did` line of a place came.
    fn came(&self, place: usize) -> u64
        ensures { (dids : ℕ) (past : List Step) → place < dids → AreCompletionsAt dids past self.now
            → result ≡ last_where (is_did place) past }
    {
        self.dids.get(place).copied().unwrap_or(0)
    }

    // When what completes an op was last run.
    fn completed(&self, script: &Script, thread: usize, op: u32) -> u64
        ensures { (dids : ℕ) (past : List Step) → AreCompletionsAt dids past self.now
            → result ≡ last_where (runs (completes (op_at script.now thread op) op)) past }
    {
        let Some(started) = op_at(script, thread, op) else {
            return 0;
        };
        match started {
            Op::Visit { .. } => self.visited.get(&op).copied().unwrap_or(0),
            Op::Each => self.casted.get(&op).copied().unwrap_or(0),
            _ => 0,
        }
    }
}

// Puts a time at a place of a list, if it is there.
fn set(times: &mut Vec<u64>, place: usize, time: u64)
    ensures { times.new.items ≡ slice_set times.old.items place time }
{
    if let Some(at) = times.get_mut(place) {
        *at = time;
    }
}
