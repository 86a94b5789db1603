//! A light thread.
ghost use Rattle.std.specs.Prelude.{◌≡◌, ◌≢◌, ℕ, ◌+◌, ◌<◌, ◌≤◌, ◌↔◌, true, false, [], ◌∷◌, ◌++◌, length, All, IsTrue, IfOk, IfErr, OnOk, OnErr, slice_index_or};
ghost use Rattle.lw_place.specs.PlaceSeats.{IsEvent, IsHeld, MayLeave};
ghost use Rattle.lw_poller.specs.Changes.{IsLeastFree, IsNotAdded, with_active};
ghost use Rattle.lw_thread.specs.Acts.{asks_of, no_acts, no_asks};
ghost use Rattle.lw_thread.specs.Endings.{MayEnd};
ghost use Rattle.lw_thread.specs.Threads.{AreItsEnds, HasParts, IsAbove, IsLawful, IsStill, booked, known, known_of, last_of};

use crate::acts::Acts;
use crate::body::Body;
use crate::links::Links;
use crate::polling::poll_parts;
use crate::stop::{Polled, Stop};
use lw_base::{Hop, NoMemory, Tick};
use lw_load::LoadPass;
use lw_place::{Place, ThreadSeat};
use lw_poller::{PollerId, PollerRefusal};
use lw_ring::{RecvEnd, SendEnd};
use std::alloc::Global;
use std::marker::Model;
use std::sync::Wait;

/// A light thread. Whoever holds it is alone with it: its state, its ends, its seat and its figures go where it goes.
///
/// As long as no poll answered Stop it is lawful between polls, and it has run all that it has taken. `number` tells both.
#[derive(Drop)]
pub struct LightThread<B: Body> {
    pub(crate) alloc: Global,
    pub(crate) body: B,
    pub(crate) acts: Acts<B::Message>,
    pub(crate) links: Links<B::Message>,
    pub(crate) seat: ThreadSeat,
    pub(crate) load: LoadPass,
    pub(crate) trail: Vec<Hop>,
    pub(crate) stopped: bool,
}

impl<B: Body> Model for LightThread<B> {
    ghost use Rattle.std.specs.Prelude.{◌≡◌};
    ghost use Rattle.lw_thread.specs.Threads.{Thread, IsKept};

    ghost Value = { Thread B.Message.Letter B.Message.Family B.Message B };

    ghost view = { λ t. record {
      body = t.body;
      acts = t.acts;
      recv = t.links.recv;
      ends = t.links.ends;
      seat = t.seat;
      load = t.load;
      ran = t.links.ran;
      left = t.links.left;
      trail = t.trail.items;
      stopped = t.stopped;
    } };

    ghost invariant = { λ t. (t.links.thread ≡ t.seat.thread) × IsKept B.Message.letter B.Message.tag_of B.lawful (record {
      body = t.body;
      acts = t.acts;
      recv = t.links.recv;
      ends = t.links.ends;
      seat = t.seat;
      load = t.load;
      ran = t.links.ran;
      left = t.links.left;
      trail = t.trail.items;
      stopped = t.stopped;
    }) };
}

impl<B: Body> LightThread<B> {
    /// A thread that has run nothing, with no poller.
    ///
    /// `recv` is the receiving end of its ring, which has a latch and is of the seat's number. `ends` are its sending ends: one to
    /// the ring of each thread, in order, with the seat's number as their sender, all of the ring's family. Nothing was taken
    /// and nothing sent by them, nothing published by the load pass, which is of the seat's number, and the seat's place isn't
    /// that of an ended thread. The body is lawful, with nothing run, nothing sent and no poller.
    pub fn new(
        alloc: Global,
        body: B,
        recv: RecvEnd<B::Message>,
        ends: Vec<SendEnd<B::Message>>,
        seat: ThreadSeat,
        load: LoadPass,
    ) -> Result<LightThread<B>, NoMemory>
        requires ends { AreItsEnds seat.thread recv ends.items }
        requires unused { (recv.taken ≡ []) × All (λ e. e.sent ≡ []) ends.items }
        requires place { seat.place ≢ Place.Ended }
        requires load { (load.thread ≡ seat.thread) × (load.busy ≡ 0) × (load.idle ≡ 0) }
        requires lawful { B.lawful (known_of seat.thread recv ends.items) no_asks body }
        ensures { IfOk result (λ t. t ≡ record {
          body = body;
          acts = no_acts (length ends.items);
          recv = recv;
          ends = ends.items;
          seat = seat;
          load = load;
          ran = [];
          left = [];
          trail = [];
          stopped = false;
        }) }
    {
        let acts = Acts::new(alloc, ends.len() as u32)?;
        let links = Links::new(alloc, seat.thread(), recv, ends)?;
        Ok(LightThread {
            alloc,
            body,
            acts,
            links,
            seat,
            load,
            trail: Vec::new(alloc),
            stopped: false,
        })
    }

    /// The thread's number. What each light thread keeps can be learned by this call.
    pub fn number(&self) -> u32
        ensures number { result ≡ self.now.seat.thread }
        ensures parts { HasParts B.Message.tag_of self.now }
        ensures lawful { self.now.stopped ≡ false → IsLawful B.Message.letter B.lawful self.now }
    {
        self.seat.thread()
    }

    /// Where the thread stands.
    pub fn place(&self) -> Place
        ensures { result ≡ self.now.seat.place }
    {
        self.seat.place()
    }

    /// Adds an active poller, as a body's first one. The body stays lawful with it.
    pub fn add_active(&mut self) -> Result<PollerId, PollerRefusal>
        requires lawful { (n : ℕ) → IsLeastFree self.old.acts.pollers n → self.old.stopped ≡ false →
            B.lawful (known self.old) (asks_of B.Message.letter (record self.old.acts {
              pollers = with_active n self.old.acts.pollers;
            })) self.old.body }
        ensures number { IfOk result (λ id. IsLeastFree self.old.acts.pollers id.0) }
        ensures added { IfOk result (λ id. self.new ≡ record self.old {
          acts = record self.old.acts { pollers = with_active id.0 self.old.acts.pollers };
        }) }
        ensures cause { IfErr result (λ e. IsNotAdded self.old.acts.pollers e) }
        ensures same { OnErr result (self.new ≡ self.old) }
        ensures still { IsStill self.old self.new }
    {
        self.acts.add_active()
    }

    /// Asks for the end of the thread, as its body may do.
    pub fn ask_end(&mut self)
        ensures asked { self.new ≡ record self.old { acts = record self.old.acts { asked_end = true } } }
        ensures still { IsStill self.old self.new }
    {
        self.acts.ask_end();
    }

    /// Whether the thread may end, as far as it depends on itself: its end was asked for, no poller is live, and the body may
    /// end. Then `try_end` tries its ring.
    pub fn may_end(&self) -> bool
        ensures { IsTrue result ↔ MayEnd B.ends self.now }
    {
        self.acts.asked_end() && self.acts.has_no_poller() && self.body.may_end()
    }

    /// The thread leaves for a reactor. It isn't held.
    pub fn leave_for(&mut self, to: u32)
        requires place { MayLeave self.old.seat.place }
        requires range { to < self.old.seat.places.reactors }
        ensures left { self.new ≡ record self.old { seat = record self.old.seat { place = Place.Event to } } }
        ensures still { IsStill self.old self.new }
    {
        self.seat.leave_for(to);
    }

    /// The thread arrives, out of an event.
    pub fn arrive(&mut self)
        requires { IsEvent self.old.seat.place }
        ensures arrived { (reactor : ℕ) → self.old.seat.place ≡ Place.Event reactor →
            self.new ≡ record self.old { seat = record self.old.seat { place = Place.List reactor } } }
        ensures still { IsStill self.old self.new }
    {
        self.seat.arrive();
    }

    /// The thread, which is held, starts.
    pub fn start(&mut self)
        requires { IsHeld self.old.seat.place }
        ensures started { (reactor : ℕ) → self.old.seat.place ≡ Place.Held reactor →
            self.new ≡ record self.old { seat = record self.old.seat { place = Place.List reactor } } }
        ensures still { IsStill self.old self.new }
    {
        self.seat.start();
    }

    /// The last move, if there was one.
    pub fn last_hop(&self) -> Option<Hop>
        ensures { result ≡ last_of self.now.trail }
    {
        self.trail.last().copied()
    }

    /// Notes a move, of a round above that of the last move.
    pub fn add_hop(&mut self, hop: Hop) -> Result<(), NoMemory>
        requires { IsAbove hop.round (last_of self.old.trail) }
        ensures ok { OnOk result (self.new ≡ record self.old { trail = self.old.trail ++ hop ∷ [] }) }
        ensures same { OnErr result (self.new ≡ self.old) }
        ensures still { IsStill self.old self.new }
    {
        self.trail.push(hop)?;
        Ok(())
    }

    /// The busy and the idle ticks that were booked, which are the figures that its pass published last.
    pub fn sums(&self) -> (Tick, Tick)
        ensures { (result.0 ≡ self.now.load.busy) × (result.1 ≡ self.now.load.idle) }
    {
        let last = self.load.last();
        (last.busy, last.idle)
    }

    /// Books so many ticks, as busy where the thread worked and as idle where it didn't, and publishes both sums. They stop at
    /// the greatest u64.
    pub fn book<R: Wait>(&mut self, rt: &R, worked: bool, ticks: Tick)
        ensures booked { self.new ≡ record self.old { load = booked worked ticks self.old.load } }
        ensures still { IsStill self.old self.new }
    {
        let last = self.load.last();
        if worked {
            self.load
                .publish(rt, last.busy.saturating_add(ticks), last.idle);
        } else {
            self.load
                .publish(rt, last.busy, last.idle.saturating_add(ticks));
        }
    }

    /// The sending end to a thread's ring, as it is. The rest is dropped.
    pub fn into_end(self, to: u32) -> SendEnd<B::Message>
        requires { to < length self.ends }
        ensures { (d : _) → result ≡ slice_index_or self.ends to d }
    {
        let LightThread {
            alloc: _,
            body: _,
            acts: _,
            links,
            seat: _,
            load: _,
            trail: _,
            stopped: _,
        } = self;
        let Links {
            thread: _,
            recv: _,
            mut ends,
            ran: _,
            batch: _,
            gone: _,
        } = links;
        ends.swap_remove(to as usize)
    }
}

impl<B: Body> LightThread<B> {
    ghost use Rattle.lw_thread.specs.Polls.{Polls, Stops, IsStop, CameTo};

    /// One poll at this time: takes at most 8 messages and runs them, calls each active poller, then each timed one that is due,
    /// and makes the sends that all of this asked for.
    ///
    /// `Stop` is `Spent` only where the end that it names has sent 2^40. Then all is done as in any poll, up to the send by that
    /// end: it and all behind it are still to be made, in order. `NoMemory` comes before any send is made, or at one of them: then
    /// too all is done up to that send, and those behind it are still to be made, but it, or the run of sends to one thread that
    /// it stands in, or what `Body::returned` asked for last, may be dropped. Where a call of the body answered it, nothing is said
    /// of the body and its acts. After a Stop what was taken and not run stays in the thread, and the thread isn't polled again.
    /// A poll in which nothing comes and nothing is sent takes no memory but that the log may get room.
    pub fn poll<R: Wait>(&mut self, rt: &R, now: Tick) -> Result<Polled, Stop>
        requires { self.old.stopped ≡ false }
        ensures going { OnOk result (self.new.stopped ≡ false) }
        ensures polled { IfOk result (λ p. Polls B.Message.letter B.Message.tag_of B.Message.fits B.Message.marked B.runs B.ticks
            B.takes_back now self.old self.new p) }
        ensures stopped { IfErr result (λ s. (self.new.stopped ≡ true) × IsStop self.new s
            × Stops B.Message.letter B.Message.tag_of B.Message.fits B.runs now self.old self.new) }
        ensures came { IfErr result (CameTo B.Message.letter B.Message.tag_of B.Message.fits B.Message.marked B.runs B.ticks
            B.takes_back now self.old self.new) }
        ensures still { IsStill self.old self.new }
        ensures rest { (self.new.seat ≡ self.old.seat) × (self.new.load ≡ self.old.load)
            × (self.new.trail ≡ self.old.trail) }
    {
        let outcome = poll_parts(
            rt,
            self.alloc,
            now,
            &mut self.body,
            &mut self.acts,
            &mut self.links,
        );
        self.stopped = outcome.is_err();
        outcome
    }
}

fn is_send<X: Send>(_x: &X) {}

/// A light thread crosses to another machine thread. It is for no caller.
pub fn threads_are_send<B: Body>(thread: &LightThread<B>) {
    is_send(thread)
}
