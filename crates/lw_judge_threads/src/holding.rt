//! What a thread holds of each device while its lines are gone through in own order.
ghost use Rattle.std.specs.Prelude.{◌≡◌, ◌<◌, ◌^◌, ◌∷◌, [], ℕ, List, length, IfOk, IfSome, slice_get, vec_len};
ghost use Rattle.lw_model.specs.declared.step.Step.{Step};
ghost use Rattle.lw_model.specs.declared.script.Script.{Script};
ghost use Rattle.lw_model.specs.Threads.{is_on};
ghost use Rattle.lw_model.specs.Holding.{references, held, submitted};
ghost use Rattle.lw_judge_threads.specs.Holdings.{HoldsAt, AnswersChannel, ClosesChannel, RunsChannel, AnswersHolding, ClosesHolding, RunsHolding};

use crate::ops::image_at;
use lw_base::{NoMemory, What};
use lw_model::{Answer, Script, Step};
use std::alloc::Global;

/// What a thread holds of one device.
#[derive(Copy, Clone, Drop)]
pub struct Channel {
    /// Its `given` and `again` lines.
    gained: u64,
    /// Its `counted` and `deferred` lines.
    lost: u64,
    /// The putselfs that were sent and not run.
    pending: u64,
    /// The ordinal of the channel that it holds.
    held: Option<u64>,
    /// The requests since the channel was given.
    submitted: u64,
}

/// What a thread holds of each device.
#[derive(Drop)]
pub struct Holding {
    closed: bool,
    channels: Vec<Channel>,
}

impl Holding {
    /// A thread that did nothing so far.
    pub fn new(alloc: Global, devices: usize) -> Result<Self, NoMemory>
        ensures { IfOk result (λ h. (s : Script) (t : ℕ) → length s.images ≡ devices → HoldsAt s t [] h) }
    {
        let mut channels = Vec::new(alloc);
        for _ in 0..devices {
            channels.push(Channel {
                gained: 0,
                lost: 0,
                pending: 0,
                held: None,
                submitted: 0,
            })?;
        }
        Ok(Holding {
            closed: false,
            channels,
        })
    }

    /// The reference count of a device.
    pub fn references(&self, device: u32) -> u64
        ensures { (s : Script) (t : ℕ) (past : List Step) → HoldsAt s t past self.now → device < length s.images
            → result ≡ references (is_on s t device) past }
    {
        match self.channels.get(device as usize) {
            Some(channel) if !self.closed => channel.gained.saturating_sub(channel.lost),
            _ => 0,
        }
    }

    /// The ordinal of the channel of a device that the thread holds.
    pub fn held(&self, device: u32) -> Option<u64>
        ensures { (s : Script) (t : ℕ) (past : List Step) → HoldsAt s t past self.now → device < length s.images
            → result ≡ held (is_on s t device) device past }
    {
        self.channels.get(device as usize)?.held
    }

    /// How many requests went to a device since the channel was given.
    pub fn submitted(&self, device: u32) -> u64
        ensures { (s : Script) (t : ℕ) (past : List Step) → HoldsAt s t past self.now → device < length s.images
            → result ≡ submitted (is_on s t device) past }
    {
        match self.channels.get(device as usize) {
            Some(channel) => channel.submitted,
            None => 0,
        }
    }

    /// Goes past one step more.
    pub fn step(&mut self, script: &Script, thread: usize, step: &Step)
        ensures { (past : List Step) → length past < 2 ^ 63 → HoldsAt script.now thread past self.old
            → HoldsAt script.now thread (step.now ∷ past) self.new }
    {
        match step {
            Step::Did { line, .. } => match line.answer {
                Answer::Closed => self.close(),
                answer => {
                    if let Some(device) = image_at(script, thread, line.op) {
                        self.answer(device, answer);
                    }
                }
            },
            Step::Called { .. } => {}
            Step::Ran { tag, .. } => {
                if let What::PutSelf { device } = tag.what {
                    self.run_putself(device);
                }
            }
        }
    }

    // The thread's last line: it gives back what it still holds a reference of.
    fn close(&mut self)
        ensures { ClosesHolding self.old self.new }
    {
        if !self.closed {
            for channel in self.channels.iter_mut() {
                channel.give_back();
            }
        }
        self.closed = true;
    }

    // An answer, other than that of the last line, to an op on a device.
    fn answer(&mut self, device: u32, answer: Answer)
        ensures { AnswersHolding device answer self.old self.new }
    {
        if let Some(channel) = self.channels.get_mut(device as usize) {
            channel.answer(answer);
        }
    }

    // A putself of a device is run.
    fn run_putself(&mut self, device: u32)
        ensures { RunsHolding device self.old self.new }
    {
        let closed = self.closed;
        if let Some(channel) = self.channels.get_mut(device as usize) {
            channel.run_putself(closed);
        }
    }
}

impl Channel {
    // An answer, other than that of the last line, to an op on the device.
    fn answer(&mut self, answer: Answer)
        ensures { AnswersChannel answer self.old self.new }
    {
        match answer {
            Answer::Given { ordinal } => {
                self.gained = self.gained.saturating_add(1);
                self.held = Some(ordinal);
                self.submitted = 0;
            }
            Answer::Again { .. } => self.gained = self.gained.saturating_add(1),
            Answer::Counted => self.lost = self.lost.saturating_add(1),
            Answer::Deferred => {
                self.lost = self.lost.saturating_add(1);
                self.pending = self.pending.saturating_add(1);
            }
            Answer::Sent => self.submitted = self.submitted.saturating_add(1),
            _ => {}
        }
    }

    // The thread's last line: where it still holds a reference, the channel is put once more.
    fn give_back(&mut self)
        ensures { ClosesChannel self.old self.new }
    {
        if self.gained > self.lost {
            self.pending = self.pending.saturating_add(1);
        }
    }

    // The last pending putself takes the channel away where no reference is left.
    fn run_putself(&mut self, closed: bool)
        ensures { RunsChannel closed self.old self.new }
    {
        if self.pending == 1 && (closed || self.gained <= self.lost) {
            self.held = None;
        }
        self.pending = self.pending.saturating_sub(1);
    }
}
