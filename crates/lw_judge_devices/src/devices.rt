//! What the devices were told by all threads, and whether each came to what its line says.
ghost use Rattle.std.specs.Prelude.{◌≡◌, ◌+◌, ◌<◌, ◌^◌, ◌∷◌, [], ℕ, List, length, IfOk, OnOk};
ghost use Rattle.lw_model.specs.declared.record.Record.{Record};
ghost use Rattle.lw_model.specs.declared.script.Script.{Script};
ghost use Rattle.lw_model.specs.declared.step.Step.{Step};
ghost use Rattle.lw_model.specs.Threads.{is_client, thread_count};
ghost use Rattle.lw_model.specs.Lines.{device_line};
ghost use Rattle.lw_model.specs.Devices.{device_at};
ghost use Rattle.lw_model.specs.Verdict.{devices, least_failing};
ghost use Rattle.lw_judge_threads.specs.Holdings.{HoldsAt};
ghost use Rattle.lw_judge_devices.specs.DeviceTold.{IsTellAt};
ghost use Rattle.lw_judge_devices.specs.DevicesTold.{AreDevicesAt, TellsAt, AnswersDevices, CallsDevices, AnswersTells};

use crate::device::{Device, Tell, Times};
use lw_base::NoMemory;
use lw_judge_threads::{Holding, image_at};
use lw_model::{Answer, DeviceEnd, Record, Script, Step};
use std::alloc::Global;

/// What all threads so far told of each device.
#[derive(Drop)]
pub struct Devices {
    devices: Vec<Device>,
}

/// What the thread that is gone through told of each device.
#[derive(Drop)]
pub struct Tells {
    devices: Vec<Tell>,
}

impl Devices {
    /// Before the first thread.
    pub fn new(alloc: Global, devices: usize) -> Result<Self, NoMemory>
        ensures { IfOk result (λ ds. (r : Record) → length r.script.images ≡ devices
            → AreDevicesAt r 0 [] ds) }
    {
        let mut all = Vec::new(alloc);
        for _ in 0..devices {
            all.push(Device {
                ordinals: Vec::new(alloc),
                began: Times::Never,
                called: Times::Never,
                callbacks_fit: true,
                refusals_fit: true,
                refused: false,
            })?;
        }
        Ok(Devices { devices: all })
    }

    /// Goes past one step more of a thread, which holds so much before it.
    pub fn step(
        &mut self,
        tells: &mut Tells,
        script: &Script,
        thread: usize,
        holding: &Holding,
        step: &Step,
    ) -> Result<(), NoMemory>
        ensures { (r : Record) (past : List Step) → r.script ≡ script.now
            → HoldsAt script.now thread past holding.now → TellsAt script.now thread past tells.old
            → AreDevicesAt r thread past self.old
            → OnOk result (TellsAt script.now thread (step.now ∷ past) tells.new
            × AreDevicesAt r thread (step.now ∷ past) self.new) }
    {
        match step {
            Step::Did { line, .. } => {
                if let Some(device) = image_at(script, thread, line.op) {
                    let is_client = is_client(script, thread);
                    let before = tells.of(device);
                    self.answer(device, thread, is_client, before, line.answer)?;
                    tells.answer(device, line.answer);
                }
            }
            Step::Called { line, .. } => {
                let device = line.device;
                self.call(device, thread, tells.of(device), holding.held(device));
            }
            Step::Ran { .. } => {}
        }
        Ok(())
    }

    /// The line of the first device of which something that was told isn't what its line says, where device 0 has
    /// the line `first_line`.
    pub fn rule(&self, alloc: Global, of: &Record, first_line: u64) -> Result<Option<u64>, NoMemory>
        ensures { AreDevicesAt of.now (thread_count of.now.script) [] self.now
            → first_line ≡ device_line of.now 0 → first_line + length of.now.script.images < 2 ^ 64
            → IfOk result (λ line. line ≡ least_failing (devices of.now)) }
    {
        for (device, told) in self.devices.iter().enumerate() {
            if !told.holds(alloc, end_of(of, device))? {
                return Ok(Some(first_line.saturating_add(device as u64)));
            }
        }
        Ok(None)
    }

    // An answer to an op on a device.
    fn answer(
        &mut self,
        device: u32,
        thread: usize,
        is_client: bool,
        before: Tell,
        answer: Answer,
    ) -> Result<(), NoMemory>
        ensures { OnOk result
            (AnswersDevices device thread is_client before answer self.old self.new) }
    {
        if let Some(told) = self.devices.get_mut(device as usize) {
            told.answer(thread, is_client, before, answer)?;
        }
        Ok(())
    }

    // A callback of a device.
    fn call(&mut self, device: u32, thread: usize, before: Tell, held: Option<u64>)
        ensures { CallsDevices device thread before held self.old self.new }
    {
        if let Some(told) = self.devices.get_mut(device as usize) {
            told.call(thread, before, held);
        }
    }
}

impl Tells {
    /// A thread that did nothing so far.
    pub fn new(alloc: Global, devices: usize) -> Result<Self, NoMemory>
        ensures { IfOk result (λ ts. (s : Script) (t : ℕ) → length s.images ≡ devices
            → TellsAt s t [] ts) }
    {
        let mut all = Vec::new(alloc);
        for _ in 0..devices {
            all.push(Tell {
                began: false,
                shut: false,
            })?;
        }
        Ok(Tells { devices: all })
    }

    // What the thread told of a device.
    fn of(&self, device: u32) -> Tell
        ensures { (s : Script) (t : ℕ) (past : List Step) → TellsAt s t past self.now
            → device < length s.images → IsTellAt s t device past result }
    {
        match self.devices.get(device as usize) {
            Some(tell) => *tell,
            None => Tell {
                began: false,
                shut: false,
            },
        }
    }

    // An answer to an op on a device.
    fn answer(&mut self, device: u32, answer: Answer)
        ensures { AnswersTells device answer self.old self.new }
    {
        if let Some(tell) = self.devices.get_mut(device as usize) {
            tell.answer(answer);
        }
    }
}

// What a device came to.
fn end_of(of: &Record, device: usize) -> DeviceEnd
    ensures { result ≡ device_at of.now device }
{
    match of.devices.as_slice().get(device) {
        Some(end) => *end,
        None => DeviceEnd {
            given: 0,
            thread: 0,
            callbacks: 0,
        },
    }
}

// Whether a thread is a client.
fn is_client(script: &Script, thread: usize) -> bool
    ensures { result ≡ is_client script.now thread }
{
    thread > 0 && thread <= script.clients.len()
}
