//! What each client is owed, by the number of its op.
ghost use Rattle.std.specs.Prelude.{◌≡◌, ℕ, ◌<◌, ◌==◌, ◌&&◌, IfOk, None, Some, option_map, if◌then◌else◌, length, replicate};

use lw_base::NoMemory;
use lw_model::{Replied, Script};
use std::alloc::Global;

/// For each thread before the owners, by the number of its op, what it is owed; nothing where none is noted. The app
/// has no ops here.
#[derive(Drop)]
pub struct Owed {
    threads: Vec<Vec<Option<Replied>>>,
}

impl Owed {
    ghost use Rattle.lw_model.specs.declared.script.Script.{Script};
    ghost use Rattle.lw_model.specs.Threads.{ops_of};
    ghost use Rattle.lw_judge_devices.specs.Owed.{HasPlaces, reply_in};

    /// Nothing is noted yet.
    pub fn nothing(alloc: Global, script: &Script) -> Result<Self, NoMemory>
        ensures places { IfOk result (HasPlaces script.now) }
        ensures none { IfOk result (λ owed. (t k : ℕ) → reply_in owed t k ≡ None) }
    {
        let mut threads = Vec::new(alloc);
        threads.push(Vec::new(alloc))?;
        for client in script.clients.as_slice() {
            threads.push(unanswered(alloc, client.ops.len())?)?;
        }
        Ok(Owed { threads })
    }

    /// What an op of a thread is owed.
    pub fn reply(&self, thread: usize, op: u32) -> Option<&Replied>
        ensures { option_map (λ a. a.now) result ≡ reply_in self.now thread op }
    {
        self.threads.get(thread)?.get(op as usize)?.as_ref()
    }

    /// Notes what an op of a thread is owed.
    pub fn put(&mut self, thread: usize, op: u32, answer: Replied)
        ensures places { (s : Script) → HasPlaces s self.old → HasPlaces s self.new }
        ensures replies { (s : Script) → HasPlaces s self.old → op < length (ops_of s thread) → (t k : ℕ)
            → reply_in self.new t k ≡ (if thread == t && op == k then Some answer else reply_in self.old t k) }
    {
        if let Some(ops) = self.threads.get_mut(thread) {
            if let Some(place) = ops.get_mut(op as usize) {
                *place = Some(answer);
            }
        }
    }
}

// So many ops, of which none is answered.
fn unanswered(alloc: Global, ops: usize) -> Result<Vec<Option<Replied>>, NoMemory>
    ensures { IfOk result (λ v. v.items ≡ replicate ops None) }
{
    let mut answers = Vec::with_capacity(alloc, ops)?;
    for _ in 0..ops {
        answers.push(None)?;
    }
    Ok(answers)
}
