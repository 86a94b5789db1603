//! Each thread's own order, gone through once for all rules that look at it.
ghost use Rattle.std.specs.Prelude.{◌≡◌, ◌<◌, ◌^◌, ◌+◌, ◌∷◌, [], ℕ, List, Some, length, slice_get, IfOk, OnOk};
ghost use Rattle.std.specs.List.{AllByRecursion};
ghost use Rattle.lw_model.specs.declared.step.Step.{Step};
ghost use Rattle.lw_model.specs.OwnOrder.{own_order_of};
ghost use Rattle.lw_model.specs.Threads.{thread_count};
ghost use Rattle.lw_judge_threads.specs.LinesOf.{AreThreadLines, StandsAt, IsPlaced};
ghost use Rattle.lw_judge_messages.specs.Tokens.{AreRunners};
ghost use Rattle.lw_judge.specs.Walked.{IsGoingAt, IsWalkedTo};

use lw_base::NoMemory;
use lw_judge_answers::{Answering, answers_of_thread};
use lw_judge_devices::{Devices, Tells};
use lw_judge_messages::{Marks, Runners, Sends};
use lw_judge_threads::{Holding, ThreadLines, lesser, own_order};
use lw_model::{Record, Step, ThreadRecord};
use std::alloc::Global;

/// What the threads' own orders tell.
#[derive(Drop)]
pub struct Walk {
    pub sends: Sends,
    pub devices: Devices,
    pub marks: Marks,
    /// The first line at which the rule on answers fails.
    pub answers: Option<u64>,
}

/// What is known of the thread that is gone through.
#[derive(Drop)]
pub struct Going {
    holding: Holding,
    tells: Tells,
    answering: Answering,
}

impl Walk {
    /// What the own orders of all threads tell, where these ran each token.
    pub fn of(
        alloc: Global,
        of: &Record,
        layout: &[ThreadLines],
        runners: &Runners,
    ) -> Result<Self, NoMemory>
        requires lines { AreThreadLines of.now layout.now }
        requires runners { AreRunners of.now runners.now }
        ensures { IfOk result (IsWalkedTo of.now (thread_count of.now.script) []) }
    {
        let mut walk = Walk::new(alloc, of)?;
        walk.go_through_all(alloc, of, layout, runners)?;
        Ok(walk)
    }

    // Before the first thread.
    fn new(alloc: Global, of: &Record) -> Result<Self, NoMemory>
        ensures { IfOk result (IsWalkedTo of.now 0 []) }
    {
        Ok(Walk {
            sends: Sends::new(alloc, of.threads.len())?,
            devices: Devices::new(alloc, of.script.images.len())?,
            marks: Marks::new(alloc),
            answers: None,
        })
    }

    // Goes through all threads.
    fn go_through_all(
        &mut self,
        alloc: Global,
        of: &Record,
        layout: &[ThreadLines],
        runners: &Runners,
    ) -> Result<(), NoMemory>
        requires lines { AreThreadLines of.now layout.now }
        requires runners { AreRunners of.now runners.now }
        requires walked { IsWalkedTo of.now 0 [] self.old }
        ensures { OnOk result (IsWalkedTo of.now (thread_count of.now.script) [] self.new) }
    {
        for (thread, lines) in layout.iter().enumerate() {
            let told = &of.threads.as_slice()[thread];
            self.go_through(alloc, of, runners, thread, told, lines)?;
        }
        Ok(())
    }

    // Goes through one thread's own order.
    fn go_through(
        &mut self,
        alloc: Global,
        of: &Record,
        runners: &Runners,
        thread: usize,
        told: &ThreadRecord,
        lines: &ThreadLines,
    ) -> Result<(), NoMemory>
        requires told { slice_get of.now.threads thread ≡ Some told.now }
        requires lines { StandsAt of.now thread lines.now }
        requires runners { AreRunners of.now runners.now }
        requires walked { IsWalkedTo of.now thread [] self.old }
        ensures { OnOk result (IsWalkedTo of.now (thread + 1) [] self.new) }
    {
        let steps = own_order(alloc, told)?;
        let mut going = Going::new(alloc, of, thread)?;
        self.go_along(
            alloc,
            of,
            runners,
            thread,
            lines,
            steps.as_slice(),
            &mut going,
        )
    }

    // Goes past all steps of a thread that did nothing so far, and past its end. What is made for the thread is the
    // caller's, so that nothing has to be given back where memory is lacking.
    fn go_along(
        &mut self,
        alloc: Global,
        of: &Record,
        runners: &Runners,
        thread: usize,
        lines: &ThreadLines,
        steps: &[Step],
        going: &mut Going,
    ) -> Result<(), NoMemory>
        requires within { thread < 2 ^ 32 }
        requires few { length steps.now < 2 ^ 63 }
        requires steps { steps.now ≡ own_order_of of.now thread }
        requires placed { AllByRecursion (IsPlaced of.now thread) steps.now }
        requires lines { StandsAt of.now thread lines.now }
        requires runners { AreRunners of.now runners.now }
        requires going { IsGoingAt of.now thread [] going.old }
        requires walked { IsWalkedTo of.now thread [] self.old }
        ensures { OnOk result (IsWalkedTo of.now (thread + 1) [] self.new) }
    {
        for step in steps {
            self.step(alloc, of, runners, thread, lines, going, step)?;
        }
        self.sends.finish(of, thread)?;
        let least = answers_of_thread(of, thread, lines, going.answering.least());
        self.answers = lesser(self.answers, least);
        Ok(())
    }

    // Goes past one step more of a thread.
    fn step(
        &mut self,
        alloc: Global,
        of: &Record,
        runners: &Runners,
        thread: usize,
        lines: &ThreadLines,
        going: &mut Going,
        step: &Step,
    ) -> Result<(), NoMemory>
        requires { thread < 2 ^ 32 }
        ensures { (past : List Step) → length past < 2 ^ 63 → StandsAt of.now thread lines.now → AreRunners of.now runners.now
            → IsPlaced of.now thread step.now → IsGoingAt of.now thread past going.old → IsWalkedTo of.now thread past self.old
            → OnOk result (IsGoingAt of.now thread (step.now ∷ past) going.new × IsWalkedTo of.now thread (step.now ∷ past) self.new) }
    {
        going
            .answering
            .step(of, thread, lines, &going.holding, step)?;
        self.sends.step(of, runners, thread, &going.holding, step)?;
        self.devices
            .step(&mut going.tells, &of.script, thread, &going.holding, step)?;
        self.marks
            .step(alloc, &of.script, thread as u32, &going.holding, step)?;
        going.holding.step(&of.script, thread, step);
        Ok(())
    }
}

impl Going {
    // A thread that did nothing so far.
    fn new(alloc: Global, of: &Record, thread: usize) -> Result<Self, NoMemory>
        ensures { IfOk result (IsGoingAt of.now thread []) }
    {
        let devices = of.script.images.len();
        Ok(Going {
            holding: Holding::new(alloc, devices)?,
            tells: Tells::new(alloc, devices)?,
            answering: Answering::new(alloc, of, thread)?,
        })
    }
}
