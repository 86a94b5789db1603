//! Which clients are done, while the app's lines are gone through in own order.
ghost use Rattle.std.specs.Prelude.{◌≡◌, ◌==◌, ◌∷◌, [], ℕ, true, List, length, IfOk, slice_index_or};
ghost use Rattle.std.specs.List.{list_all, list_any};
ghost use Rattle.lw_model.specs.declared.step.Step.{Step};
ghost use Rattle.lw_model.specs.declared.script.Script.{Script};
ghost use Rattle.lw_model.specs.Threads.{clients};
ghost use Rattle.lw_model.specs.Answers.{is_done_of};
ghost use Rattle.lw_judge_answers.specs.DonesAt.{AreDonesAt};

use lw_base::{NoMemory, What};
use lw_model::Step;
use std::alloc::Global;

/// Which clients' `done` was run.
#[derive(Drop)]
pub struct Dones {
    /// How many weren't.
    waiting: usize,
    /// By client, from the first.
    done: Vec<bool>,
}

impl Dones {
    /// No client's was.
    pub fn new(alloc: Global, clients: usize) -> Result<Self, NoMemory>
        ensures { IfOk result (λ d. (s : Script) → length s.clients ≡ clients → AreDonesAt s [] d) }
    {
        Ok(Dones {
            waiting: clients,
            done: vec![in alloc; false; clients]?,
        })
    }

    /// Whether each client's was.
    pub fn are_all(&self) -> bool
        ensures { (s : Script) (past : List Step) → AreDonesAt s past self.now
            → result ≡ list_all (λ c. list_any (is_done_of c) past) (clients s) }
    {
        self.waiting == 0
    }

    /// Goes past one step more.
    pub fn step(&mut self, step: &Step)
        ensures { (s : Script) (past : List Step) → AreDonesAt s past self.old → AreDonesAt s (step.now ∷ past) self.new }
    {
        if let Step::Ran { tag, .. } = step {
            if let What::Done = tag.what {
                self.mark(tag.sender);
            }
        }
    }

    // Whether nothing is to be marked at a place: it is marked, or no client's.
    fn is_marked(&self, place: usize) -> bool
        ensures { result ≡ slice_index_or self.now.done.items place true }
    {
        self.done.get(place).copied().unwrap_or(true)
    }

    // This client's was run, if it is one.
    fn mark(&mut self, sender: u32)
        ensures { (s : Script) (past : List Step) (now : Step) → ((c : ℕ) → is_done_of c now ≡ (sender == c))
            → AreDonesAt s past self.old → AreDonesAt s (now ∷ past) self.new }
    {
        if sender == 0 {
            return;
        }
        let place = sender as usize - 1;
        if self.is_marked(place) {
            return;
        }
        self.done[place] = true;
        self.waiting = self.waiting.saturating_sub(1);
    }
}
