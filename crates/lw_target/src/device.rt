//! A device as plain numbers: its standing channels, how many were given, who unregistered it, and its callbacks.
ghost use Rattle.std.specs.Prelude.{◌≡◌, ◌+◌, ◌-◌, ◌↔◌, ◌==◌, min, if◌then◌else◌, is_some, unwrap_or, Some, None, IsTrue, IfNone, OnSome};

use lw_model::{Answer, DeviceEnd};

/// The device of one image, which the machines are lent for a call.
#[derive(Copy, Clone, Drop)]
pub struct Device {
    /// How many channels stand.
    pub standing: u64,
    /// How many channels were ever given.
    pub given: u64,
    /// The thread that began its unregistration.
    pub shut_by: Option<u32>,
    pub callbacks: u32,
}

impl Device {
    ghost use Rattle.lw_target.specs.Answers.{unregister_answer};
    ghost use Rattle.lw_target.specs.Effects.{device_after};

    /// A device that nobody has used.
    pub fn new() -> Self
        ensures { result ≡ record { standing = 0; given = 0; shut_by = None; callbacks = 0 } }
    {
        Device {
            standing: 0,
            given: 0,
            shut_by: None,
            callbacks: 0,
        }
    }

    /// Whether unregistration has begun, so that no channel is given any more.
    pub fn is_shut(&self) -> bool
        ensures { result ≡ is_some self.now.shut_by }
    {
        self.shut_by.is_some()
    }

    /// Gives a channel to a thread that holds none, and answers its ordinal.
    pub fn give(&mut self) -> u64
        ensures ordinal { result ≡ self.old.given }
        ensures counted { self.new ≡ record self.old {
          standing = min (self.old.standing + 1) 18446744073709551615;
          given = min (self.old.given + 1) 18446744073709551615;
        } }
    {
        let ordinal = self.given;
        self.given = ordinal.saturating_add(1);
        self.standing = self.standing.saturating_add(1);
        ordinal
    }

    /// Counts a channel where the answer gives one.
    pub fn count(&mut self, answer: Answer)
        ensures { self.new ≡ device_after answer self.old }
    {
        if let Answer::Given { .. } = answer {
            self.give();
        }
    }

    /// Takes back a channel that was given.
    pub fn release(&mut self)
        ensures { self.new ≡ record self.old { standing = self.old.standing - 1 } }
    {
        self.standing = self.standing.saturating_sub(1);
    }

    /// Begins unregistration, unless it has begun.
    pub fn unregister(&mut self, thread: u32) -> Answer
        ensures answer { result ≡ unregister_answer self.old }
        ensures began { IfNone self.old.shut_by (self.new ≡ record self.old { shut_by = Some thread }) }
        ensures already { OnSome self.old.shut_by (self.new ≡ self.old) }
    {
        if self.is_shut() {
            return Answer::Already;
        }
        self.shut_by = Some(thread);
        Answer::Began { given: self.given }
    }

    /// Makes the callback of a device that is being unregistered, where no channel stands. Answers whether it did.
    pub fn fire(&mut self) -> bool
        ensures due { result ≡ (self.old.standing == 0) }
        ensures counted { self.new ≡ record self.old {
          callbacks = if self.old.standing == 0 then min (self.old.callbacks + 1) 4294967295 else self.old.callbacks;
        } }
    {
        if self.standing > 0 {
            return false;
        }
        self.callbacks = self.callbacks.saturating_add(1);
        true
    }

    /// What the device came to.
    pub fn end(&self) -> DeviceEnd
        ensures { result ≡ record {
          given = self.now.given;
          thread = unwrap_or self.now.shut_by 0;
          callbacks = self.now.callbacks;
        } }
    {
        DeviceEnd {
            given: self.given,
            thread: self.shut_by.unwrap_or(0),
            callbacks: self.callbacks,
        }
    }
}
