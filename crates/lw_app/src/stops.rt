//! How the app ends.
ghost use Rattle.std.specs.Prelude.{◌≡◌, nat_lt, length, true, OnOk, IfOk};
ghost use Rattle.std.specs.Arc.{arc_value};
ghost use Rattle.lw_poller.specs.Pollers.{times};
ghost use Rattle.lw_model.specs.Threads.{owner_of};
ghost use Rattle.lw_app.specs.Ticking.{is_due, MayTick, StopsTo, EndsWhereDone, Steps, TicksAs};

use crate::app::{App, Stage};
use lw_base::NoMemory;
use lw_mail::{Content, Mail};
use lw_poller::PollerId;
use lw_thread::{Acts, Work};

impl App {
    // Asks for a Stop to each owner, in the owners' order.
    fn stop_owners(&self, acts: &mut Acts<Mail>) -> Result<(), NoMemory>
        requires { owner_of (arc_value self.now.script) (length self.now.owed) ≡ acts.old.threads }
        ensures { OnOk result (StopsTo (owner_of (arc_value self.now.script) 0) (length self.now.owed) acts.old acts.new) }
    {
        let owners = self.owed.len();
        let first = acts.threads() - owners;
        for image in 0..owners {
            acts.send(first + image, Mail::new(Content::Stop))?;
        }
        Ok(())
    }

    // Where no callback is owed: stops the owners, removes the poller and asks to end. Answers whether a send was asked for.
    fn end_where_done(&mut self, poller: PollerId, acts: &mut Acts<Mail>) -> Result<bool, NoMemory>
        requires threads { owner_of (arc_value self.old.script) (length self.old.owed) ≡ acts.old.threads }
        requires live { times poller.0 acts.old.pollers ≡ 1 }
        ensures ends { OnOk result (EndsWhereDone poller.0
            (record { body = self.old; acts = acts.old }) (record { body = self.new; acts = acts.new })) }
        ensures asked { IfOk result (λ asked. asked ≡ nat_lt (length acts.old.pending) (length acts.new.pending)) }
    {
        if !self.owed.is_empty() {
            return Ok(false);
        }
        self.stop_owners(acts)?;
        if acts.remove(poller).is_err() {
            unreachable!()
        }
        acts.ask_end();
        self.stage = Stage::Stopped;
        Ok(self.owed.len() != 0)
    }

    // Does in a tick what there is to do, and answers whether it listed a line or asked for a send.
    fn work(&mut self, poller: PollerId, acts: &mut Acts<Mail>) -> Result<Work, NoMemory>
        requires may { MayTick self.old acts.old }
        requires live { times poller.0 acts.old.pollers ≡ 1 }
        requires due { is_due self.old ≡ true }
        ensures { IfOk result (λ work. Steps poller.0 work
            (record { body = self.old; acts = acts.old }) (record { body = self.new; acts = acts.new })) }
    {
        let lines = self.did.len();
        let callbacks = self.called.len();
        self.begin(acts.ran())?;
        self.call_back(acts.ran())?;
        let asked = self.end_where_done(poller, acts)?;
        if lines < self.did.len() || callbacks < self.called.len() || asked {
            return Ok(Work::Busy);
        }
        Ok(Work::Idle)
    }

    // A tick: nothing before a Done of each client has come, and behind the Stops.
    pub(crate) fn poll(&mut self, poller: PollerId, acts: &mut Acts<Mail>) -> Result<Work, NoMemory>
        requires may { MayTick self.old acts.old }
        requires live { times poller.0 acts.old.pollers ≡ 1 }
        ensures { IfOk result (λ work. TicksAs (is_due self.old) poller.0 work
            (record { body = self.old; acts = acts.old }) (record { body = self.new; acts = acts.new })) }
    {
        if !self.is_due() {
            return Ok(Work::Idle);
        }
        self.work(poller, acts)
    }
}
