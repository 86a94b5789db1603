//! How the app unregisters the devices and makes their callbacks.
ghost use Rattle.std.specs.Prelude.{◌≡◌, ◌<◌, ◌≤◌, true, false, length, OnOk};
ghost use Rattle.lw_device.specs.Rows.{seat_of};
ghost use Rattle.lw_app.specs.Apps.{flag_at, lines_at, IsApp};
ghost use Rattle.lw_mail.specs.Runs.{Run};
ghost use Rattle.lw_app.specs.Ticking.{is_due, Unregisters, UnregistersTo, Tries, TriesTo, Begins};

use crate::app::{App, Stage};
use lw_base::NoMemory;
use lw_channel::{Already, Firing};
use lw_model::{Answer, Called, Did};

impl App {
    // Whether there is something to do: a Done of each client has come, and the Stops are not sent.
    pub(crate) fn is_due(&self) -> bool
        ensures { result ≡ is_due self.now }
    {
        match self.stage {
            Stage::Waiting => self.awaited.is_empty(),
            Stage::Calling => true,
            Stage::Stopped => false,
        }
    }

    // Unregisters the devices, unless it has done so, and lists their answers.
    pub(crate) fn begin(&mut self, at: u64) -> Result<(), NoMemory>
        requires { (r : Run) × IsApp r (lines_at self.old.stage r.script) self.old }
        ensures { OnOk result (Begins at self.old self.new) }
    {
        match self.stage {
            Stage::Waiting => {
                self.unregister_all(at)?;
                self.stage = Stage::Calling;
                Ok(())
            }
            Stage::Calling | Stage::Stopped => Ok(()),
        }
    }

    // Unregisters each device in number order.
    fn unregister_all(&mut self, at: u64) -> Result<(), NoMemory>
        requires { (r : Run) × IsApp r 0 self.old }
        ensures { OnOk result (UnregistersTo at (length self.old.owed) self.old self.new) }
    {
        for device in 0..self.owed.len() {
            self.unregister(device, at)?;
        }
        Ok(())
    }

    // Unregisters a device and lists its answer. Where the app began, it owes the callback.
    fn unregister(&mut self, device: u32, at: u64) -> Result<(), NoMemory>
        requires device { device < length self.old.set.row.seats }
        requires flag { device < length self.old.owed }
        requires unowed { flag_at self.old.owed device ≡ false }
        ensures { OnOk result (Unregisters at device self.old self.new) }
    {
        let answer = match self.set.unregister(device) {
            Ok(given) => {
                self.owed.set(device);
                Answer::Began { given }
            }
            Err(Already) => Answer::Already,
        };
        self.did.push(Did {
            at,
            op: device,
            answer,
        })
    }

    // Tries each callback that is owed, in device order.
    pub(crate) fn call_back(&mut self, at: u64) -> Result<(), NoMemory>
        requires { (r : Run) × IsApp r (length r.script.images) self.old }
        ensures { OnOk result (TriesTo at (length self.old.owed) self.old self.new) }
    {
        for device in 0..self.owed.len() {
            self.try_callback(device, at)?;
        }
        Ok(())
    }

    // Tries the callback of a device where it is owed, and lists it where it is made.
    fn try_callback(&mut self, device: u32, at: u64) -> Result<(), NoMemory>
        requires device { device < length self.old.set.row.seats }
        requires began { flag_at self.old.owed device ≡ true →
            (1 ≤ (seat_of self.old.set.row device).view.begun)
            × ((seat_of self.old.set.row device).began_by ≡ (seat_of self.old.set.row device).number) }
        ensures { OnOk result (Tries at device self.old self.new) }
    {
        if !self.owed.has(device) {
            return Ok(());
        }
        match self.set.callback_due(device) {
            Firing::Fired => {
                self.owed.clear(device);
                self.called.push(Called { at, device })
            }
            Firing::NotYet { .. } => Ok(()),
        }
    }
}
