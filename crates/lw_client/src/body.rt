//! A client as the body of a light thread.

use crate::client::{Client, Stage};
use lw_base::{NoMemory, Tick};
use lw_mail::Mail;
use lw_poller::PollerId;
use lw_thread::{Acts, Body, Work};
use std::sync::Wait;

impl Body for Client {
    ghost use Rattle.std.proofs.Common.{◌∙◌, length-set};
    ghost use Rattle.lw_client.specs.Handling.{Runs, TakesBack};
    ghost use Rattle.lw_client.specs.Keeping.{Keeps, may_end};
    ghost use Rattle.lw_client.specs.Turning.{Ticks};

    type Message = Mail;

    ghost lawful = { Keeps };

    ghost ends = { may_end };

    ghost runs = { Runs };

    ghost ticks = { Ticks };

    ghost takes_back = { TakesBack };

    // What was sent changes nothing that a client keeps.
    ghost sending = { λ k live to x rest body within h. record {
      run = h.run;
      family = h.family;
      number = h.number;
      threads = length-set k.sent to _ ∙ h.threads;
      sound = h.sound;
      pollers = h.pollers;
    } };

    fn run<R: Wait>(
        &mut self,
        rt: &R,
        message: Mail,
        _now: Tick,
        acts: &mut Acts<Mail>,
    ) -> Result<(), NoMemory> {
        self.handle(rt, message, acts)
    }

    fn tick<R: Wait>(
        &mut self,
        rt: &R,
        poller: PollerId,
        now: Tick,
        acts: &mut Acts<Mail>,
    ) -> Result<Work, NoMemory> {
        self.call(rt, poller.0, now, acts)
    }

    fn returned<R: Wait>(
        &mut self,
        _rt: &R,
        to: u32,
        message: Mail,
        acts: &mut Acts<Mail>,
    ) -> Result<(), NoMemory> {
        self.take_back(to, message, acts)
    }

    fn may_end(&self) -> bool {
        match self.stage {
            Stage::Done => self.kept.len() == 0,
            _ => false,
        }
    }
}
