//! How a client starts waits, visits and casts.
ghost use Rattle.std.specs.Prelude.{◌≡◌, ◌⊎◌, ◌<◌, ◌≤◌, Some, OnOk};
ghost use Rattle.lw_passing.specs.Passing.{Asks};
ghost use Rattle.lw_mail.specs.declared.mail.Content.{Content};
ghost use Rattle.lw_client.specs.Clients.{active};
ghost use Rattle.lw_client.specs.Doing.{listed, CarriesVisit, StartsWait, StartsVisit, FindsShut, StartsCast};
ghost use Rattle.lw_client.specs.Using.{CanUse, IsFree, NoVisit};

use crate::client::{Client, Waits};
use lw_base::{NoMemory, Tick};
use lw_mail::{Content, Mail};
use lw_model::Answer;
use lw_ops::{add_timer, pause};
use lw_thread::Acts;
use lw_visit::{VisitRefusal, VisitToken, start_cast, start_visit};
use std::alloc::AllocError;

/// The number of a client's active poller, which is its first.
pub const ACTIVE: u32 = 0;

impl Client {
    // Starts a wait.
    #[tactic(auto, using(crate::proofs::Pollers::times_added))]
    pub(crate) fn wait(
        &mut self,
        ticks: u64,
        now: Tick,
        acts: &mut Acts<Mail>,
    ) -> Result<(), NoMemory>
        requires ticks { 1 ≤ ticks }
        requires free { IsFree acts.old }
        ensures { OnOk result (StartsWait now ticks (record { body = self.old; acts = acts.old }) (record { body = self.new; acts = acts.new })) }
    {
        let poller = add_timer(acts, ticks, now)?;
        pause(acts, ACTIVE);
        self.waits = Waits::Timer {
            poller,
            op: self.next,
        };
        Ok(())
    }

    // Sends a visit's token on its way, and waits for its completion.
    fn send_visit(
        &mut self,
        image: u32,
        token: VisitToken,
        acts: &mut Acts<Mail>,
    ) -> Result<(), NoMemory>
        requires lines { self.old.next < 200000 }
        requires some { 1 ≤ acts.old.threads }
        ensures body { OnOk result (self.new ≡ record (listed acts.old.ran Answer.Started self.old) { waits = Waits.Visit self.old.next image }) }
        ensures sent { OnOk result ((c : Content) × CarriesVisit token c × Asks 0 c acts.old acts.new) }
    {
        let op = self.next;
        self.list(acts.ran(), Answer::Started)?;
        self.waits = Waits::Visit { op, device: image };
        let token = Box::new(self.alloc, token)?;
        acts.send(0, Mail::new(Content::Visit(token)))
    }

    // Starts a visit, unless the device is shut.
    pub(crate) fn visit(&mut self, image: u32, acts: &mut Acts<Mail>) -> Result<(), NoMemory>
        requires can { CanUse acts.old.threads image self.old }
        requires none { NoVisit image self.old }
        ensures { OnOk result (StartsVisit image (record { body = self.old; acts = acts.old }) (record { body = self.new; acts = acts.new })
            ⊎ FindsShut image (record { body = self.old; acts = acts.old }) (record { body = self.new; acts = acts.new })) }
    {
        let Some(set) = &mut self.set else {
            unreachable!()
        };
        match start_visit(
            self.alloc,
            set,
            self.thread,
            self.next,
            image,
            acts.threads(),
        ) {
            Ok(token) => self.send_visit(image, token, acts),
            Err(VisitRefusal::Shut) => self.list(acts.ran(), Answer::Shut),
            Err(VisitRefusal::NoMemory) => Err(AllocError),
        }
    }

    // Starts a cast.
    pub(crate) fn cast(&mut self, acts: &mut Acts<Mail>) -> Result<(), NoMemory>
        requires lines { self.old.next < 200000 }
        requires some { 1 ≤ acts.old.threads }
        ensures { OnOk result (StartsCast (record { body = self.old; acts = acts.old }) (record { body = self.new; acts = acts.new })) }
    {
        let op = self.next;
        let token = start_cast(self.alloc, self.thread, op, acts.threads())?;
        self.list(acts.ran(), Answer::Started)?;
        self.waits = Waits::Cast { op };
        let token = Box::new(self.alloc, token)?;
        acts.send(0, Mail::new(Content::Cast(token)))
    }
}
