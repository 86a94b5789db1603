//! How a client does its next op.
ghost use Rattle.std.specs.Prelude.{◌≡◌, ◌≢◌, ◌⊎◌, ◌<◌, true, false, Some, None, IfOk, IfSome, IfNone};
ghost use Rattle.lw_mail.specs.Runs.{Run};
ghost use Rattle.lw_client.specs.Doing.{Does, HasToWait, Stops, DoesNext, next_task};
ghost use Rattle.lw_client.specs.Going.{IsWell};
ghost use Rattle.lw_client.specs.Clients.{IsSound};
ghost use Rattle.lw_client.specs.Using.{MayDo};

use crate::client::{Client, Waits};
use lw_base::{NoMemory, Tick};
use lw_mail::Mail;
use lw_ops::{Task, task_of};
use lw_thread::Acts;
use std::sync::Wait;

impl Client {
    // Does what an op asks for, unless it has to wait. Answers whether it did.
    fn do_task<R: Wait>(
        &mut self,
        rt: &R,
        task: Task,
        now: Tick,
        acts: &mut Acts<Mail>,
    ) -> Result<bool, NoMemory>
        requires may { MayDo acts.old self.old task }
        ensures does { IfOk result (λ did. did ≡ true → Does now task (record { body = self.old; acts = acts.old }) (record { body = self.new; acts = acts.new })) }
        ensures waits { IfOk result (λ did. did ≡ false → HasToWait task self.old × (self.new ≡ self.old) × (acts.new ≡ acts.old)) }
    {
        match task {
            Task::Get { image } => self.get(image, acts)?,
            Task::Put { image } => return self.put_answered(image, acts),
            Task::Ask { image } => return self.ask(image, acts),
            Task::Read { image, class } => return self.read(rt, image, class, acts),
            Task::Wait { ticks } => self.wait(ticks, now, acts)?,
            Task::Visit { image } => self.visit(image, acts)?,
            Task::Each => self.cast(acts)?,
            Task::Unregister { image } => return self.unregister_answered(image, acts),
        }
        Ok(true)
    }

    // What the next op asks for, unless it waits for something, or no op is left.
    fn next_task(&self) -> Option<Task>
        requires { (r : Run) × IsSound r self.now }
        ensures some { IfSome result (λ task. (self.now.waits ≡ Waits.Nothing) × (next_task self.now ≡ Some task)) }
        ensures none { IfNone result ((self.now.waits ≢ Waits.Nothing) ⊎ (next_task self.now ≡ None)) }
    {
        match self.waits {
            Waits::Nothing => task_of(&self.script, self.thread, self.next),
            _ => None,
        }
    }

    // Does the next op, unless something is waited for, no op is left, or it has to wait. Answers whether it did.
    pub(crate) fn do_next<R: Wait>(
        &mut self,
        rt: &R,
        now: Tick,
        acts: &mut Acts<Mail>,
    ) -> Result<bool, NoMemory>
        requires well { (r : Run) × IsWell r (record { body = self.old; acts = acts.old }) }
        ensures does { IfOk result (λ did. did ≡ true → DoesNext now (record { body = self.old; acts = acts.old }) (record { body = self.new; acts = acts.new })) }
        ensures stops { IfOk result (λ did. did ≡ false → Stops self.old × (self.new ≡ self.old) × (acts.new ≡ acts.old)) }
    {
        match self.next_task() {
            Some(task) => self.do_task(rt, task, now, acts),
            None => Ok(false),
        }
    }
}
