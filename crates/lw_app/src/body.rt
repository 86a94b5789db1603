//! The app as the body of a light thread.
use crate::app::App;
use lw_base::{NoMemory, Tick};
use lw_mail::Mail;
use lw_poller::PollerId;
use lw_thread::{Acts, Body, Work};
use std::sync::Wait;

impl Body for App {
    ghost use Rattle.std.proofs.Common.{[], ◌∷◌, ◌++◌, length, slice_set, sym, subst, ◌∙◌, length-set};
    ghost use Rattle.lw_base.specs.Letters.{list_at};
    ghost use Rattle.lw_whole.specs.Unsent.{named};
    ghost use Rattle.lw_history.specs.Histories.{all_of};
    ghost use Rattle.lw_history.specs.Made.{AreMade};
    ghost use Rattle.lw_history.proofs.Made.{sends_are_made};
    ghost use Rattle.lw_app.specs.Keeping.{Keeps, pairs, may_end, Runs, Ticks, TakesBack};

    type Message = Mail;

    ghost lawful = { Keeps };

    ghost ends = { may_end };

    ghost runs = { Runs };

    ghost ticks = { Ticks };

    ghost takes_back = { TakesBack };

    // The first send that was asked for is the next of the log that is made.
    ghost sending = { λ k live to x rest body within h. record {
      run = h.run;
      family = h.family;
      number = h.number;
      threads = length-set k.sent to _ ∙ h.threads;
      app = h.app;
      at_stage = h.at_stage;
      polled = h.polled;
      log = λ e. record {
        history = (h.log e).history;
        own = (h.log e).own;
        ran = (h.log e).ran;
        sent = subst (λ t. AreMade 0 (slice_set k.sent to (list_at k.sent to ++ named x t (length (list_at k.sent to)) ∷ [])) (pairs rest) (all_of (h.log e).history))
            (sym h.number) (sends_are_made 0 k.sent to x (pairs rest) (all_of (h.log e).history) within (h.log e).sent);
        fits = (h.log e).fits;
        did = (h.log e).did;
        called = (h.log e).called;
        lines = (h.log e).lines;
        ends = (h.log e).ends;
        keeps = (h.log e).keeps;
        row = (h.log e).row;
        came = (h.log e).came;
        began = (h.log e).began;
      };
    } };

    fn run<R: Wait>(
        &mut self,
        _rt: &R,
        message: Mail,
        _now: Tick,
        acts: &mut Acts<Mail>,
    ) -> Result<(), NoMemory> {
        self.handle(message, acts)
    }

    fn tick<R: Wait>(
        &mut self,
        _rt: &R,
        poller: PollerId,
        _now: Tick,
        acts: &mut Acts<Mail>,
    ) -> Result<Work, NoMemory> {
        self.poll(poller, acts)
    }

    fn returned<R: Wait>(
        &mut self,
        _rt: &R,
        to: u32,
        message: Mail,
        acts: &mut Acts<Mail>,
    ) -> Result<(), NoMemory> {
        self.handle_back(to, message, acts)
    }

    fn may_end(&self) -> bool {
        self.has_stopped() && self.kept.len() == 0
    }
}
