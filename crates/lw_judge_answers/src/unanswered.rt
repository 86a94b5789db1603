//! The requests of a client that are unanswered while its lines are gone through in own order.
ghost use Rattle.std.specs.Prelude.{◌≡◌, ◌+◌, ◌-◌, ◌<◌, ◌==◌, ◌^◌, ◌∷◌, [], ℕ, List, not, filter, length, min, IfOk, OnOk, slice_index, slice_set};
ghost use Rattle.lw_model.specs.declared.step.Step.{Step};
ghost use Rattle.lw_model.specs.declared.script.Script.{Script};
ghost use Rattle.lw_model.specs.Answers.{unanswered, unanswered_on};
ghost use Rattle.lw_judge_answers.specs.UnansweredAt.{CountsOps, IsUnansweredAt};

use lw_base::{NoMemory, What};
use lw_judge_threads::image_at;
use lw_model::{Answer, Script, Step};
use std::alloc::Global;
use std::collections::HashMap;

/// How many requests of a thread are unanswered.
#[derive(Drop)]
pub struct Unanswered {
    total: u64,
    /// Those on each device.
    on: Vec<u64>,
    /// Those of each op.
    ops: HashMap<u32, u64>,
}

impl Unanswered {
    /// No request was sent so far.
    pub fn new(alloc: Global, devices: usize) -> Result<Self, NoMemory>
        ensures { IfOk result (λ u. (s : Script) (t : ℕ) → length s.images ≡ devices → IsUnansweredAt s t [] u) }
    {
        Ok(Unanswered {
            total: 0,
            on: vec![in alloc; 0u64; devices]?,
            ops: HashMap::new(alloc),
        })
    }

    /// How many requests are unanswered.
    pub fn total(&self) -> u64
        ensures { (s : Script) (t : ℕ) (past : List Step) → IsUnansweredAt s t past self.now → result ≡ length (unanswered past) }
    {
        self.total
    }

    /// How many of them are on a device.
    pub fn on(&self, device: u32) -> u64
        ensures { (s : Script) (t : ℕ) (past : List Step) → IsUnansweredAt s t past self.now → device < length s.images
            → result ≡ length (unanswered_on s t device past) }
    {
        self.on.get(device as usize).copied().unwrap_or(0)
    }

    /// Goes past one step more.
    pub fn step(&mut self, script: &Script, thread: usize, step: &Step) -> Result<(), NoMemory>
        ensures { (past : List Step) → length past < 2 ^ 63 → IsUnansweredAt script.now thread past self.old
            → OnOk result (IsUnansweredAt script.now thread (step.now ∷ past) self.new) }
    {
        match step {
            Step::Did { line, .. } => {
                if let Answer::Sent = line.answer {
                    self.send(script, thread, line.op)?;
                }
            }
            Step::Called { .. } => {}
            Step::Ran { tag, .. } => {
                if let What::Reply { op } = tag.what {
                    self.take_out(script, thread, op);
                }
            }
        }
        Ok(())
    }

    // One request more, of this op.
    fn send(&mut self, script: &Script, thread: usize, op: u32) -> Result<(), NoMemory>
        ensures { (ops : List ℕ) → length ops < 2 ^ 63 → CountsOps script.now thread ops self.old
            → OnOk result (CountsOps script.now thread (op ∷ ops) self.new) }
    {
        let before = self.ops.get(&op).copied().unwrap_or(0);
        self.ops.insert(op, before.saturating_add(1))?;
        self.total = self.total.saturating_add(1);
        if let Some(device) = image_at(script, thread, op) {
            raise(&mut self.on, device as usize);
        }
        Ok(())
    }

    // A reply answers all requests of its op.
    fn take_out(&mut self, script: &Script, thread: usize, op: u32)
        ensures { (ops : List ℕ) → CountsOps script.now thread ops self.old
            → CountsOps script.now thread (filter (λ j. not (j == op)) ops) self.new }
    {
        let answered = self.ops.remove(&op).unwrap_or(0);
        self.total = self.total.saturating_sub(answered);
        if let Some(device) = image_at(script, thread, op) {
            lower(&mut self.on, device as usize, answered);
        }
    }
}

// One more at a place of a list, if it is there.
fn raise(counts: &mut Vec<u64>, place: usize)
    ensures { counts.new.items ≡ slice_set counts.old.items place (min (slice_index counts.old.items place + 1) (2 ^ 64 - 1)) }
{
    if let Some(count) = counts.get_mut(place) {
        *count = count.saturating_add(1);
    }
}

// So many less at a place of a list, if it is there.
fn lower(counts: &mut Vec<u64>, place: usize, by: u64)
    ensures { counts.new.items ≡ slice_set counts.old.items place (slice_index counts.old.items place - by) }
{
    if let Some(count) = counts.get_mut(place) {
        *count = count.saturating_sub(by);
    }
}
