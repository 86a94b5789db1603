//! How a client makes the callbacks that it owes.
ghost use Rattle.std.specs.Prelude.{◌≡◌, ◌<◌, true, false, [], ◌∷◌, ◌++◌, length, All, Some, OnOk};
ghost use Rattle.lw_client.specs.Clients.{use_of};
ghost use Rattle.lw_client.specs.Doing.{with_use, use_called};
ghost use Rattle.lw_client.specs.Turning.{Tries, TriesAs};
ghost use Rattle.lw_client.specs.Using.{MayCall};

use crate::client::{Client, Use};
use lw_base::NoMemory;
use lw_device::Firing;
use lw_mail::Mail;
use lw_model::Called;
use lw_thread::Acts;

impl Client {
    // Tries the callback of a device, which is owed.
    fn try_callback(&mut self, image: u32, acts: &mut Acts<Mail>) -> Result<(), NoMemory>
        requires may { MayCall image self.old }
        requires owed { (use_of self.old image).owes ≡ true }
        ensures { OnOk result (TriesAs true image (record { body = self.old; acts = acts.old }) (record { body = self.new; acts = acts.new })) }
    {
        let Some(set) = &mut self.set else {
            unreachable!()
        };
        match set.callback_due(image) {
            Firing::Fired => self.note_callback(image, acts.ran()),
            Firing::NotYet { .. } => Ok(()),
        }
    }

    // Lists the callback of a device, which is owed no more.
    fn note_callback(&mut self, image: u32, at: u64) -> Result<(), NoMemory>
        requires { image < length self.old.uses }
        ensures { OnOk result (self.new ≡ record (with_use image use_called self.old) {
          called = self.old.called ++ record { at = at; device = image } ∷ [];
        }) }
    {
        let kept = self.uses.at(image as usize);
        self.uses.put(
            image as usize,
            Use {
                requests: kept.requests,
                puts: kept.puts,
                owes: false,
            },
        );
        self.called.push(Called { at, device: image })
    }

    // Tries the callback of a device, where it is owed.
    pub(crate) fn call_back(&mut self, image: u32, acts: &mut Acts<Mail>) -> Result<(), NoMemory>
        requires { MayCall image self.old }
        ensures { OnOk result (Tries image (record { body = self.old; acts = acts.old }) (record { body = self.new; acts = acts.new })) }
    {
        if self.uses.at(image as usize).owes {
            return self.try_callback(image, acts);
        }
        Ok(())
    }

    // Whether it owes no callback.
    pub(crate) fn owes_none(&self) -> bool
        ensures none { result ≡ true → All (λ u. u.owes ≡ false) self.now.uses }
        ensures some { result ≡ false → All (λ u. u.owes ≡ false) self.now.uses → ⊥ }
    {
        for image in 0..self.uses.len() {
            if self.uses.at(image).owes {
                return false;
            }
        }
        true
    }
}
