//! Whether each line that tells what an op was answered fits what its thread did before.
ghost use Rattle.std.specs.Prelude.{◌≡◌, ◌<◌, ◌^◌, ◌∷◌, ◌&&◌, [], ℕ, true, List, length, option_map, IfOk, OnOk, IfSome};
ghost use Rattle.lw_model.specs.declared.record.Record.{Record};
ghost use Rattle.lw_model.specs.declared.script.Script.{Script};
ghost use Rattle.lw_model.specs.declared.step.Step.{Step};
ghost use Rattle.lw_model.specs.ScriptRules.{names_an_image};
ghost use Rattle.lw_model.specs.Threads.{depth_of, op_at};
ghost use Rattle.lw_model.specs.Answers.{did_fits, app_did_fits, client_did_fits, answer_fits, depth_fits};
ghost use Rattle.lw_model.specs.Verdict.{step_test, least_failing};
ghost use Rattle.lw_judge_threads.specs.Folded.{folded};
ghost use Rattle.lw_judge_threads.specs.LinesOf.{StandsAt, IsPlaced};
ghost use Rattle.lw_judge_threads.specs.Holdings.{HoldsAt};
ghost use Rattle.lw_judge_answers.specs.UnansweredAt.{IsUnansweredAt};
ghost use Rattle.lw_judge_answers.specs.AnsweringAt.{KnowsAt, IsAnsweringAt};

use crate::completions::Completions;
use crate::dones::Dones;
use crate::fits::{
    get_fits, is_closed, is_sent, is_started, is_waited, put_fits, request_fits, unregister_fits,
    visit_fits,
};
use crate::parts::{depth_of, dids_of, op_count};
use crate::unanswered::Unanswered;
use lw_base::NoMemory;
use lw_judge_threads::{Holding, ThreadLines, lesser, op_at};
use lw_model::{Answer, Did, Op, Record, Step};
use std::alloc::Global;

/// Judges the `did` lines of one thread while its lines are gone through in own order.
#[derive(Drop)]
pub struct Answering {
    unanswered: Unanswered,
    completions: Completions,
    dones: Dones,
    least: Option<u64>,
}

impl Answering {
    /// A thread that did nothing so far.
    pub fn new(alloc: Global, of: &Record, thread: usize) -> Result<Self, NoMemory>
        ensures { IfOk result (IsAnsweringAt of.now thread []) }
    {
        Ok(Answering {
            unanswered: Unanswered::new(alloc, of.script.images.len())?,
            completions: Completions::new(alloc, dids_of(of, thread).len())?,
            dones: Dones::new(alloc, of.script.clients.len())?,
            least: None,
        })
    }

    /// The first failing line of the thread's steps so far.
    pub fn least(&self) -> Option<u64>
        ensures { (r : Record) (t : ℕ) (past : List Step) → IsAnsweringAt r t past self.now → result ≡ least_failing (folded (step_test r t) past) }
    {
        self.least
    }

    /// Goes past one step more.
    pub fn step(
        &mut self,
        of: &Record,
        thread: usize,
        lines: &ThreadLines,
        holding: &Holding,
        step: &Step,
    ) -> Result<(), NoMemory>
        ensures { (past : List Step) → length past < 2 ^ 63 → StandsAt of.now thread lines.now → IsPlaced of.now thread step.now
            → HoldsAt of.now.script thread past holding.now → IsAnsweringAt of.now thread past self.old
            → OnOk result (IsAnsweringAt of.now thread (step.now ∷ past) self.new) }
    {
        self.least = self.least_with(of, thread, lines, holding, step);
        self.unanswered.step(&of.script, thread, step)?;
        self.completions.step(step)?;
        self.dones.step(step);
        Ok(())
    }

    // The first failing line of the steps so far and of one more.
    fn least_with(
        &self,
        of: &Record,
        thread: usize,
        lines: &ThreadLines,
        holding: &Holding,
        step: &Step,
    ) -> Option<u64>
        ensures { (past : List Step) → StandsAt of.now thread lines.now → IsPlaced of.now thread step.now
            → HoldsAt of.now.script thread past holding.now → IsAnsweringAt of.now thread past self.now
            → result ≡ least_failing (folded (step_test of.now thread) (step.now ∷ past)) }
    {
        let Step::Did { place, line } = step else {
            return self.least;
        };
        if self.did_fits(of, thread, holding, *place, line) {
            return self.least;
        }
        lesser(self.least, Some(lines.did.saturating_add(*place)))
    }

    // Whether the `did` line of a place fits what stands before it.
    fn did_fits(
        &self,
        of: &Record,
        thread: usize,
        holding: &Holding,
        place: u64,
        line: &Did,
    ) -> bool
        ensures { (past : List Step) → HoldsAt of.now.script thread past holding.now → KnowsAt of.now thread past self.now
            → result ≡ did_fits of.now thread past place line.now }
    {
        if thread == 0 {
            return self.app_did_fits(of, place, line);
        }
        thread <= of.script.clients.len() && self.client_did_fits(of, thread, holding, place, line)
    }

    // The app begins to unregister each device after all clients are done.
    fn app_did_fits(&self, of: &Record, place: u64, line: &Did) -> bool
        ensures { (t : ℕ) (past : List Step) → KnowsAt of.now t past self.now → result ≡ app_did_fits of.now past place line.now }
    {
        u64::from(line.op) == place
            && place < of.script.images.len() as u64
            && unregister_fits(line.answer)
            && self.dones.are_all()
    }

    // A client does its ops in order, and then it closes.
    fn client_did_fits(
        &self,
        of: &Record,
        thread: usize,
        holding: &Holding,
        place: u64,
        line: &Did,
    ) -> bool
        ensures { (past : List Step) → HoldsAt of.now.script thread past holding.now → KnowsAt of.now thread past self.now
            → result ≡ client_did_fits of.now thread past place line.now }
    {
        if u64::from(line.op) != place || place > op_count(&of.script, thread) as u64 {
            return false;
        }
        self.may_answer(of, thread, holding, line)
            && self.completions.earlier_completed(of, thread, place)
    }

    // Whether an op of a client may be answered so, by what it holds and by how many of its requests are unanswered.
    fn may_answer(&self, of: &Record, thread: usize, holding: &Holding, line: &Did) -> bool
        ensures { (past : List Step) → HoldsAt of.now.script thread past holding.now → KnowsAt of.now thread past self.now
            → result ≡ (answer_fits of.now.script thread past (op_at of.now.script thread line.now.op) line.now.answer
            && depth_fits of.now.script thread past line.now.answer) }
    {
        self.answer_fits(op_at(&of.script, thread, line.op), holding, line.answer)
            && self.depth_fits(depth_of(&of.script, thread), line.answer)
    }

    // Whether an op may be answered so; behind the last op the thread is closed.
    fn answer_fits(&self, op: Option<&Op>, holding: &Holding, answer: Answer) -> bool
        ensures { (s : Script) (t : ℕ) (past : List Step) → IfSome op.entry (λ o. names_an_image s o.now ≡ true)
            → HoldsAt s t past holding.now → IsUnansweredAt s t past self.now.unanswered
            → result ≡ answer_fits s t past (option_map (λ o. o.now) op.entry) answer }
    {
        match op {
            Some(op) => self.op_fits(op, holding, answer),
            None => is_closed(answer) && self.unanswered.total() == 0,
        }
    }

    // Whether an op may be answered so.
    fn op_fits(&self, op: &Op, holding: &Holding, answer: Answer) -> bool
        ensures { (s : Script) (t : ℕ) (past : List Step) → names_an_image s op.now ≡ true
            → HoldsAt s t past holding.now → IsUnansweredAt s t past self.now.unanswered
            → result ≡ answer_fits s t past (Some op.now) answer }
    {
        match op {
            Op::Get { image } => get_fits(holding.held(*image), answer),
            Op::Put { image } => {
                put_fits(holding.references(*image), answer) && self.unanswered.on(*image) == 0
            }
            Op::Write { image, .. } | Op::Read { image, .. } | Op::Flush { image } => {
                request_fits(holding.references(*image), answer)
            }
            Op::Wait { .. } => is_waited(answer),
            Op::Visit { .. } => visit_fits(answer),
            Op::Each => is_started(answer),
            Op::Unregister { image } => unregister_fits(answer) && self.unanswered.on(*image) == 0,
        }
    }

    // A request is sent only while fewer are unanswered than the depth.
    fn depth_fits(&self, depth: u32, answer: Answer) -> bool
        ensures { (s : Script) (t : ℕ) (past : List Step) → depth ≡ depth_of s t → IsUnansweredAt s t past self.now.unanswered
            → result ≡ depth_fits s t past answer }
    {
        !is_sent(answer) || self.unanswered.total() < u64::from(depth)
    }
}
