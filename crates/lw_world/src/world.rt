//! The world of events: threads that send, run, move and end, devices and reactors, without any rings or clocks.
ghost use Rattle.std.specs.Prelude.{◌≡◌, ◌≢◌, Err};
ghost use Rattle.lw_world.specs.World.{IsKept, HasRoom, refusal_of, stepped, answer_of};

use crate::register::Register;
use crate::tally::Tally;
use crate::world_event::{WorldEvent, WorldRefusal};
use crate::world_state::{Stage, Standing};
use std::marker::Model;

mod effects;
mod making;
mod questions;
mod refusals;

/// The state that accepted events have made.
///
/// Each question that an event asks is answered at once: sums and counts are kept beside what they count.
#[derive(Drop)]
pub struct World {
    threads: u32,
    reactors: u32,
    devices: u32,
    sent: Tally,
    run: Tally,
    standing: Register<Standing>,
    channels: Tally,
    visits: Tally,
    stage: Register<Stage>,
    asleep: Vec<bool>,
}

impl Model for World {
    ghost use Rattle.lw_world.specs.World.{State};
    ghost use Rattle.lw_world.specs.WorldParts.{IsSound, state_of};

    ghost Value = { State };

    ghost view = { λ a. state_of (record { threads = a.threads; reactors = a.reactors; devices = a.devices; sent = a.sent; run = a.run; standing = a.standing; channels = a.channels; visits = a.visits; stage = a.stage; asleep = a.asleep.items }) };

    ghost invariant = { λ a. IsSound (record { threads = a.threads; reactors = a.reactors; devices = a.devices; sent = a.sent; run = a.run; standing = a.standing; channels = a.channels; visits = a.visits; stage = a.stage; asleep = a.asleep.items }) };
}

impl World {
    /// Makes one event happen, or tells the refusal of least number that applies; then nothing changes.
    ///
    /// It takes no memory.
    pub fn step(&mut self, event: &WorldEvent) -> Result<(), WorldRefusal>
        requires { HasRoom self.old event.now }
        ensures answer { result ≡ answer_of (refusal_of self.old event.now) }
        ensures world { self.new ≡ stepped self.old event.now }
        ensures kept { IsKept self.new }
        ensures memory { result ≢ Err WorldRefusal.NoMemory }
    {
        self.keeps();
        match self.refusal(event) {
            Some(refusal) => Err(refusal),
            None => {
                self.apply(event);
                self.keeps();
                Ok(())
            }
        }
    }

    /// A law, and no work: what every world keeps that accepted events have made.
    pub fn keeps(&self)
        ensures { IsKept self.now }
    {
        let _threads = self.threads;
    }
}
