//! What the threads told of one device.
ghost use Rattle.std.specs.Prelude.{◌≡◌, ◌==◌, ℕ, IfOk, OnOk};
ghost use Rattle.lw_model.specs.Same.{is_same_pair};
ghost use Rattle.lw_model.specs.Devices.{is_began, tells_shut, needs_open, is_refusal};
ghost use Rattle.lw_judge_devices.specs.DeviceTold.{once_more, CountsAnswer, AnswersDevice, CallsDevice, AnswersTell, is_once, counts_fit, steps_fit, device_holds};

use lw_base::NoMemory;
use lw_judge_threads::is_numbering;
use lw_model::{Answer, DeviceEnd};
use std::alloc::Global;

/// How often something was told, and what, where it was told once.
#[derive(Copy, Clone, Drop)]
pub enum Times<T> {
    Never,
    Once(T),
    Often,
}

impl<T: Copy> Times<T> {
    /// It is told once more.
    pub fn once_more(self, now: T) -> Self
        ensures { result ≡ once_more self now }
    {
        match self {
            Times::Never => Times::Once(now),
            _ => Times::Often,
        }
    }
}

/// What all threads so far told of a device.
#[derive(Drop)]
pub struct Device {
    /// The ordinals of its channels.
    pub ordinals: Vec<u64>,
    /// Its `began` lines, by their thread and how many channels had been given.
    pub began: Times<(usize, u64)>,
    /// Its callbacks, by their thread.
    pub called: Times<usize>,
    /// Each callback came after the thread's own `began`, where it held no channel.
    pub callbacks_fit: bool,
    /// What needs the device open never came after what tells that it is shut.
    pub refusals_fit: bool,
    /// A client has a line that only a shut device causes.
    pub refused: bool,
}

/// What the thread that is gone through told of a device.
#[derive(Copy, Clone, Drop)]
pub struct Tell {
    /// It has a `began` line.
    pub began: bool,
    /// It has a line that tells that the device is shut.
    pub shut: bool,
}

impl Device {
    /// An answer to an op on the device, where the thread told so much before.
    pub fn answer(
        &mut self,
        thread: usize,
        is_client: bool,
        before: Tell,
        answer: Answer,
    ) -> Result<(), NoMemory>
        ensures { OnOk result (AnswersDevice thread is_client before answer self.old self.new) }
    {
        self.count(thread, answer)?;
        self.refusals_fit &= !(needs_open(answer) && before.shut);
        self.refused |= is_client && is_refusal(answer);
        Ok(())
    }

    // The ordinal or the `began` line that an answer tells of.
    fn count(&mut self, thread: usize, answer: Answer) -> Result<(), NoMemory>
        ensures { OnOk result (CountsAnswer thread answer self.old self.new) }
    {
        match answer {
            Answer::Given { ordinal } => self.ordinals.push(ordinal)?,
            Answer::Began { given } => self.began = self.began.once_more((thread, given)),
            _ => {}
        }
        Ok(())
    }

    /// The device's callback, where the thread told so much before, and holds this channel.
    pub fn call(&mut self, thread: usize, before: Tell, held: Option<u64>)
        ensures { CallsDevice thread before held self.old self.new }
    {
        self.called = self.called.once_more(thread);
        self.callbacks_fit &= before.began && held.is_none();
    }

    /// Whether all that was told of the device is what its line says.
    pub fn holds(&self, alloc: Global, end: DeviceEnd) -> Result<bool, NoMemory>
        ensures { IfOk result (λ holds. holds ≡ device_holds self.now end) }
    {
        if !self.counts_fit(end) || !self.steps_fit(end) {
            return Ok(false);
        }
        is_numbering(alloc, self.ordinals.as_slice())
    }

    // As many ordinals as its line says, and one callback, on the thread that unregistered it.
    fn counts_fit(&self, end: DeviceEnd) -> bool
        ensures { result ≡ counts_fit self.now end }
    {
        self.ordinals.len() as u64 == end.given
            && self.began_once(end)
            && self.called_once(end)
            && end.callbacks == 1
    }

    // Each step fits those before it, and where the app unregistered the device, no client was refused.
    fn steps_fit(&self, end: DeviceEnd) -> bool
        ensures { result ≡ steps_fit self.now end }
    {
        self.callbacks_fit && self.refusals_fit && !(end.thread == 0 && self.refused)
    }

    // One unregister began, as its line says.
    fn began_once(&self, end: DeviceEnd) -> bool
        ensures { result ≡ is_once is_same_pair self.now.began (end.thread, end.given) }
    {
        match self.began {
            Times::Once((thread, given)) => thread == end.thread as usize && given == end.given,
            _ => false,
        }
    }

    // One callback was made, on the thread that its line names.
    fn called_once(&self, end: DeviceEnd) -> bool
        ensures { result ≡ is_once ◌==◌ self.now.called end.thread }
    {
        match self.called {
            Times::Once(thread) => thread == end.thread as usize,
            _ => false,
        }
    }
}

impl Tell {
    /// An answer to an op on the device.
    pub fn answer(&mut self, answer: Answer)
        ensures { AnswersTell answer self.old self.new }
    {
        self.began |= is_began(answer);
        self.shut |= tells_shut(answer);
    }
}

// An unregister that began.
fn is_began(answer: Answer) -> bool
    ensures { result ≡ is_began answer }
{
    matches!(answer, Answer::Began { .. })
}

// The thread knows from then on that the device is shut.
fn tells_shut(answer: Answer) -> bool
    ensures { result ≡ tells_shut answer }
{
    matches!(
        answer,
        Answer::Began { .. } | Answer::Shut | Answer::Already
    )
}

// Only a device that isn't shut answers so.
fn needs_open(answer: Answer) -> bool
    ensures { result ≡ needs_open answer }
{
    matches!(
        answer,
        Answer::Given { .. } | Answer::Again { .. } | Answer::Began { .. } | Answer::Started
    )
}

// Only a shut device answers so.
fn is_refusal(answer: Answer) -> bool
    ensures { result ≡ is_refusal answer }
{
    matches!(answer, Answer::Shut | Answer::Already)
}
