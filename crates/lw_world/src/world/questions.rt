//! What an event asks of a world. Each answer takes the same time, however large the world is.
ghost use Rattle.std.specs.Prelude.{◌≡◌, ◌<◌, ◌≤◌, ◌&&◌, ◌||◌, nat_lt, true};
ghost use Rattle.lw_world.specs.Sums.{at, sum_below};
ghost use Rattle.lw_world.specs.World.{standing_of, stage_of, is_thread, is_reactor, is_device, is_ended, acts, sleeps, comes, is_run, has_unrun, owns, visits, owns_some, visits_some, has_owner, has_visit, is_shut, is_fired, is_shut_by, owes_callback, has_listed};

use crate::world::World;
use crate::world_state::{Stage, Standing};

impl World {
    /// How many threads there are.
    pub fn threads(&self) -> u32
        ensures count { result ≡ self.now.threads }
        ensures few { result ≤ 81 }
    {
        self.threads
    }

    /// How many reactors there are.
    pub fn reactors(&self) -> u32
        ensures { result ≡ self.now.reactors }
    {
        self.reactors
    }

    /// How many devices there are.
    pub fn devices(&self) -> u32
        ensures { result ≡ self.now.devices }
    {
        self.devices
    }

    /// How many messages a thread sent to another.
    pub fn sent(&self, sender: u32, receiver: u32) -> u64
        requires sender { sender < self.now.threads }
        requires receiver { receiver < self.now.threads }
        ensures count { result ≡ at self.now.sent sender receiver }
        ensures small { result ≤ 1099511627776 }
    {
        self.sent.at(sender, receiver)
    }

    /// How many of them were run.
    pub fn run(&self, sender: u32, receiver: u32) -> u64
        requires sender { sender < self.now.threads }
        requires receiver { receiver < self.now.threads }
        ensures count { result ≡ at self.now.run sender receiver }
        ensures small { result ≤ 1099511627776 }
    {
        self.run.at(sender, receiver)
    }

    /// Where a thread stands.
    pub fn standing(&self, thread: u32) -> Standing
        requires { thread < self.now.threads }
        ensures { result ≡ standing_of self.now thread }
    {
        self.standing.get(thread)
    }

    /// How far a device is.
    pub fn stage(&self, device: u32) -> Stage
        requires { device < self.now.devices }
        ensures { result ≡ stage_of self.now device }
    {
        self.stage.get(device)
    }

    /// How many threads own a channel of a device.
    pub fn owners(&self, device: u32) -> u64
        requires { device < self.now.devices }
        ensures { result ≡ sum_below self.now.threads (λ t. at self.now.channels t device) }
    {
        self.channels.column(device)
    }

    /// Whether a reactor sleeps.
    pub fn sleeps(&self, reactor: u32) -> bool
        ensures { result ≡ sleeps self.now reactor }
    {
        self.asleep.get(reactor as usize).copied().unwrap_or(false)
    }

    // Whether there is this thread.
    pub(crate) fn is_thread(&self, thread: u32) -> bool
        ensures is { result ≡ is_thread self.now thread }
        ensures within { result ≡ true → thread < self.now.threads }
    {
        thread < self.threads
    }

    // Whether there is this reactor.
    pub(crate) fn is_reactor(&self, reactor: u32) -> bool
        ensures is { result ≡ is_reactor self.now reactor }
        ensures within { result ≡ true → reactor < self.now.reactors }
    {
        reactor < self.reactors
    }

    // Whether there are these two threads.
    pub(crate) fn are_threads(&self, one: u32, other: u32) -> bool
        ensures is { result ≡ (is_thread self.now one && is_thread self.now other) }
        ensures one { result ≡ true → one < self.now.threads }
        ensures other { result ≡ true → other < self.now.threads }
    {
        one < self.threads && other < self.threads
    }

    // Whether there are this thread and this device.
    pub(crate) fn has_device(&self, thread: u32, device: u32) -> bool
        ensures is { result ≡ (is_thread self.now thread && is_device self.now device) }
        ensures thread { result ≡ true → thread < self.now.threads }
        ensures device { result ≡ true → device < self.now.devices }
    {
        thread < self.threads && device < self.devices
    }

    // Whether there are this thread and this reactor.
    pub(crate) fn has_reactor(&self, thread: u32, reactor: u32) -> bool
        ensures is { result ≡ (is_thread self.now thread && is_reactor self.now reactor) }
        ensures thread { result ≡ true → thread < self.now.threads }
        ensures reactor { result ≡ true → reactor < self.now.reactors }
    {
        thread < self.threads && reactor < self.reactors
    }

    // Whether a thread has ended.
    pub(crate) fn is_ended(&self, thread: u32) -> bool
        requires { thread < self.now.threads }
        ensures { result ≡ is_ended self.now thread }
    {
        match self.standing(thread) {
            Standing::List { .. } | Standing::Event { .. } => false,
            Standing::Ended => true,
        }
    }

    // Whether a thread stands in a list.
    pub(crate) fn acts(&self, thread: u32) -> bool
        requires { thread < self.now.threads }
        ensures { result ≡ acts self.now thread }
    {
        match self.standing(thread) {
            Standing::List { .. } => true,
            Standing::Event { .. } | Standing::Ended => false,
        }
    }

    // Whether a thread is on its way to a reactor that is awake.
    pub(crate) fn comes(&self, thread: u32) -> bool
        requires { thread < self.now.threads }
        ensures { result ≡ comes self.now thread }
    {
        match self.standing(thread) {
            Standing::Event { reactor } => !self.sleeps(reactor),
            Standing::List { .. } | Standing::Ended => false,
        }
    }

    // Whether all that a thread sent to another was run.
    pub(crate) fn is_run(&self, sender: u32, receiver: u32) -> bool
        requires sender { sender < self.now.threads }
        requires receiver { receiver < self.now.threads }
        ensures { result ≡ is_run self.now sender receiver }
    {
        self.sent(sender, receiver) <= self.run(sender, receiver)
    }

    // Whether a message to a thread wasn't run.
    pub(crate) fn has_unrun(&self, thread: u32) -> bool
        requires { thread < self.now.threads }
        ensures { result ≡ has_unrun self.now thread }
    {
        self.run.column(thread) < self.sent.column(thread)
    }

    // Whether a thread owns a channel of a device.
    pub(crate) fn owns(&self, thread: u32, device: u32) -> bool
        requires thread { thread < self.now.threads }
        requires device { device < self.now.devices }
        ensures { result ≡ owns self.now thread device }
    {
        0 < self.channels.at(thread, device)
    }

    // Whether a thread has an open visit of a device.
    pub(crate) fn visits(&self, thread: u32, device: u32) -> bool
        requires thread { thread < self.now.threads }
        requires device { device < self.now.devices }
        ensures { result ≡ visits self.now thread device }
    {
        0 < self.visits.at(thread, device)
    }

    // Whether a thread owns any channel.
    pub(crate) fn owns_some(&self, thread: u32) -> bool
        requires { thread < self.now.threads }
        ensures { result ≡ owns_some self.now thread }
    {
        0 < self.channels.row(thread)
    }

    // Whether a thread has any open visit.
    pub(crate) fn visits_some(&self, thread: u32) -> bool
        requires { thread < self.now.threads }
        ensures { result ≡ visits_some self.now thread }
    {
        0 < self.visits.row(thread)
    }

    // Whether any thread owns a channel of a device.
    pub(crate) fn has_owner(&self, device: u32) -> bool
        requires { device < self.now.devices }
        ensures { result ≡ has_owner self.now device }
    {
        0 < self.channels.column(device)
    }

    // Whether any thread has an open visit of a device.
    pub(crate) fn has_visit(&self, device: u32) -> bool
        requires { device < self.now.devices }
        ensures { result ≡ has_visit self.now device }
    {
        0 < self.visits.column(device)
    }

    // Whether a device has an owner or an open visit.
    pub(crate) fn is_in_use(&self, device: u32) -> bool
        requires { device < self.now.devices }
        ensures { result ≡ (has_owner self.now device || has_visit self.now device) }
    {
        self.has_owner(device) || self.has_visit(device)
    }

    // Whether a device is shut.
    pub(crate) fn is_shut(&self, device: u32) -> bool
        requires { device < self.now.devices }
        ensures { result ≡ is_shut (stage_of self.now device) }
    {
        match self.stage(device) {
            Stage::Open => false,
            Stage::Shut { .. } | Stage::Fired => true,
        }
    }

    // Whether a device's callback has fired.
    pub(crate) fn is_fired(&self, device: u32) -> bool
        requires { device < self.now.devices }
        ensures { result ≡ is_fired (stage_of self.now device) }
    {
        match self.stage(device) {
            Stage::Open | Stage::Shut { .. } => false,
            Stage::Fired => true,
        }
    }

    // Whether this thread has shut a device, and its callback hasn't fired.
    pub(crate) fn is_shut_by(&self, thread: u32, device: u32) -> bool
        requires { device < self.now.devices }
        ensures { result ≡ is_shut_by thread (stage_of self.now device) }
    {
        match self.stage(device) {
            Stage::Shut { by } => by == thread,
            Stage::Open | Stage::Fired => false,
        }
    }

    // Whether a thread has an open visit, or a callback that is still to fire.
    pub(crate) fn holds_up(&self, thread: u32) -> bool
        requires { thread < self.now.threads }
        ensures { result ≡ (visits_some self.now thread || owes_callback self.now thread) }
    {
        self.visits_some(thread) || self.owes_callback(thread)
    }

    // Whether a thread has shut a device whose callback hasn't fired.
    pub(crate) fn owes_callback(&self, thread: u32) -> bool
        requires { thread < self.now.threads }
        ensures { result ≡ owes_callback self.now thread }
    {
        0 < self.stage.count(thread as usize + 1)
    }

    // Whether a thread stands in a reactor's list.
    pub(crate) fn has_listed(&self, reactor: u32) -> bool
        requires { reactor < self.now.reactors }
        ensures { result ≡ has_listed self.now reactor }
    {
        0 < self.standing.count(reactor as usize + 1)
    }
}
