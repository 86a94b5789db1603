//! What a client does when its pollers are called.
ghost use Rattle.std.specs.Prelude.{◌≡◌, ◌≢◌, ◌+◌, ◌<◌, true, false, length, IfOk, OnOk};
ghost use Rattle.lw_mail.specs.Runs.{Run};
ghost use Rattle.lw_client.specs.Going.{IsWell, Goes, Lists};
ghost use Rattle.lw_client.specs.Turning.{TriesBelow, DoesOps, GivesBelow, ClosesAs, Closes, Ends, Turns, EndsWait, Ticks, may_close, is_timer, work_of};
ghost use Rattle.lw_client.specs.Clients.{active};
ghost use Rattle.lw_poller.specs.Pollers.{times};

use crate::client::{Client, Stage, Waits};
use crate::starting::ACTIVE;
use lw_base::{NoMemory, Tick};
use lw_mail::Mail;
use lw_model::Answer;
use lw_ops::{remove, resume};
use lw_thread::{Acts, Work};
use std::sync::Wait;

/// How many ops a client does in one tick.
const OPS_OF_A_TICK: u32 = 8;

impl Client {
    // Does up to eight ops.
    fn do_ops<R: Wait>(&mut self, rt: &R, now: Tick, acts: &mut Acts<Mail>) -> Result<(), NoMemory>
        requires well { (r : Run) × IsWell r (record { body = self.old; acts = acts.old }) }
        ensures does { OnOk result (DoesOps now (record { body = self.old; acts = acts.old }) (record { body = self.new; acts = acts.new })) }
        ensures lists { OnOk result (Lists (record { body = self.old; acts = acts.old }) (record { body = self.new; acts = acts.new })) }
    {
        for _done in 0..OPS_OF_A_TICK {
            if !self.do_next(rt, now, acts)? {
                return Ok(());
            }
        }
        Ok(())
    }

    // Tries each callback that is owed, in device order.
    fn call_backs(&mut self, acts: &mut Acts<Mail>) -> Result<(), NoMemory>
        requires well { (r : Run) × IsWell r (record { body = self.old; acts = acts.old }) }
        ensures tries { OnOk result (TriesBelow (length self.old.uses) (record { body = self.old; acts = acts.old }) (record { body = self.new; acts = acts.new })) }
        ensures lists { OnOk result (Lists (record { body = self.old; acts = acts.old }) (record { body = self.new; acts = acts.new })) }
    {
        let count = self.uses.len();
        for image in 0..count {
            self.call_back(image as u32, acts)?;
        }
        Ok(())
    }

    // Gives back all references of each device, in order.
    fn give_all_back(&mut self, acts: &mut Acts<Mail>) -> Result<(), NoMemory>
        requires well { (r : Run) × IsWell r (record { body = self.old; acts = acts.old }) }
        requires closed { self.old.stage ≡ Stage.Closed }
        ensures gives { OnOk result (GivesBelow (length self.old.uses) (record { body = self.old; acts = acts.old }) (record { body = self.new; acts = acts.new })) }
        ensures goes { OnOk result (Goes (record { body = self.old; acts = acts.old }) (record { body = self.new; acts = acts.new })) }
    {
        let count = self.uses.len();
        for image in 0..count {
            self.give_back(image as u32, acts)?;
        }
        Ok(())
    }

    // Closes, which it may.
    fn close_now(&mut self, acts: &mut Acts<Mail>) -> Result<(), NoMemory>
        requires well { (r : Run) × IsWell r (record { body = self.old; acts = acts.old }) }
        requires may { may_close self.old ≡ true }
        ensures closes { OnOk result (ClosesAs true (record { body = self.old; acts = acts.old }) (record { body = self.new; acts = acts.new })) }
        ensures lists { OnOk result (Lists (record { body = self.old; acts = acts.old }) (record { body = self.new; acts = acts.new })) }
    {
        self.list_closed(acts.ran())?;
        self.give_all_back(acts)
    }

    // Closes, where it may.
    fn close(&mut self, acts: &mut Acts<Mail>) -> Result<(), NoMemory>
        requires well { (r : Run) × IsWell r (record { body = self.old; acts = acts.old }) }
        ensures closes { OnOk result (Closes (record { body = self.old; acts = acts.old }) (record { body = self.new; acts = acts.new })) }
        ensures lists { OnOk result (Lists (record { body = self.old; acts = acts.old }) (record { body = self.new; acts = acts.new })) }
    {
        if self.may_close() {
            return self.close_now(acts);
        }
        Ok(())
    }

    // Is done, where it may be. Answers whether it is.
    fn end_well(&mut self, acts: &mut Acts<Mail>) -> Result<bool, NoMemory>
        requires well { (r : Run) × IsWell r (record { body = self.old; acts = acts.old }) }
        ensures ends { OnOk result (Ends (record { body = self.old; acts = acts.old }) (record { body = self.new; acts = acts.new })) }
        ensures goes { OnOk result (Goes (record { body = self.old; acts = acts.old }) (record { body = self.new; acts = acts.new })) }
        ensures told { IfOk result (λ told. told ≡ true → length acts.new.pending ≡ length acts.old.pending + 1) }
        ensures stays { IfOk result (λ told. told ≡ false → (self.new ≡ self.old) × (acts.new ≡ acts.old)) }
        ensures lines { OnOk result ((length self.new.did ≡ length self.old.did) × (length self.new.called ≡ length self.old.called)) }
    {
        self.end(acts)
    }

    // How many lines it has listed.
    fn count_lines(&self) -> u128
        ensures { result ≡ length self.now.did + length self.now.called }
    {
        self.did.len() as u128 + self.called.len() as u128
    }

    // The call of the active poller: the callbacks that are owed, up to eight ops, the close, and the end.
    fn turn<R: Wait>(&mut self, rt: &R, now: Tick, acts: &mut Acts<Mail>) -> Result<bool, NoMemory>
        requires well { (r : Run) × IsWell r (record { body = self.old; acts = acts.old }) }
        ensures turns { IfOk result (λ worked. Turns now worked (record { body = self.old; acts = acts.old }) (record { body = self.new; acts = acts.new })) }
        ensures goes { OnOk result (Goes (record { body = self.old; acts = acts.old }) (record { body = self.new; acts = acts.new })) }
    {
        let before = self.count_lines();
        self.call_backs(acts)?;
        self.do_ops(rt, now, acts)?;
        self.close(acts)?;
        let listed = self.count_lines() > before;
        let told = self.end_well(acts)?;
        Ok(listed || told)
    }

    // Whether this is the poller of the wait that it waits for.
    fn is_timer(&self, poller: u32) -> bool
        ensures { result ≡ is_timer self.now.waits poller }
    {
        match self.waits {
            Waits::Timer { poller: own, .. } => own == poller,
            _ => false,
        }
    }

    // Ends a wait, whose poller is called: it is removed, and the active one goes on.
    fn end_wait(&mut self, poller: u32, now: Tick, acts: &mut Acts<Mail>) -> Result<(), NoMemory>
        requires lines { self.old.next < 200000 }
        requires other { poller ≢ active }
        requires live { times poller acts.old.pollers ≡ 1 }
        requires active { times active acts.old.pollers ≡ 1 }
        ensures { OnOk result (EndsWait poller now (record { body = self.old; acts = acts.old }) (record { body = self.new; acts = acts.new })) }
    {
        self.list(acts.ran(), Answer::Waited)?;
        self.waits = Waits::Nothing;
        remove(acts, poller);
        resume(acts, ACTIVE, now);
        Ok(())
    }

    // A call of a poller, which is live.
    pub(crate) fn call<R: Wait>(
        &mut self,
        rt: &R,
        poller: u32,
        now: Tick,
        acts: &mut Acts<Mail>,
    ) -> Result<Work, NoMemory>
        requires well { (r : Run) × IsWell r (record { body = self.old; acts = acts.old }) }
        requires live { times poller acts.old.pollers ≡ 1 }
        ensures ticks { IfOk result (λ work. Ticks poller now work (record { body = self.old; acts = acts.old }) (record { body = self.new; acts = acts.new })) }
        ensures goes { OnOk result (Goes (record { body = self.old; acts = acts.old }) (record { body = self.new; acts = acts.new })) }
    {
        if self.is_timer(poller) {
            self.end_wait(poller, now, acts)?;
            return Ok(Work::Busy);
        }
        let worked = self.turn(rt, now, acts)?;
        Ok(work_of(worked))
    }
}

// The answer of a call that has worked, or hasn't.
fn work_of(worked: bool) -> Work
    ensures { result ≡ work_of worked }
{
    if worked { Work::Busy } else { Work::Idle }
}
