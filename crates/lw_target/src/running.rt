//! What a client does with a message that it runs.
ghost use Rattle.std.specs.Prelude.{List, [], ◌∷◌, ◌++◌, ◌≡◌, ◌<◌, ◌==◌, filter, map, not, length, vec_len, true, OnOk, IfSome, slice_get};
ghost use Rattle.lw_base.specs.declared.message.What.TheVariants as what;
ghost use Rattle.lw_base.specs.declared.message.Tag.{Tag};
ghost use Rattle.lw_model.specs.declared.script.Script.{Script};
ghost use Rattle.lw_model.specs.Printable.{has_bytes};
ghost use Rattle.lw_target.specs.Messages.{carries_bytes};

use crate::client::Client;
use crate::device::Device;
use crate::mail::{Load, Mail};
use lw_base::{NoMemory, What};
use lw_model::Reply;

impl Client {
    ghost use Rattle.lw_target.specs.Client.{Received, TookPut};
    ghost use Rattle.lw_target.specs.ClientCalls.{AllAgree, RanMessage, ends_of, reply_carried};
    ghost use Rattle.lw_target.specs.ClientLog.{Follows};
    ghost use Rattle.lw_target.specs.Effects.{devices_after};
    ghost use Rattle.lw_target.specs.Work.{client_work};

    /// Runs a message: a reply is listed, and behind the last put of a channel the channel is given back.
    pub fn run(&mut self, mail: Mail, devices: &mut [Device]) -> Result<(), NoMemory>
        requires devices { length devices.old ≡ vec_len self.old.channels }
        requires reply { carries_bytes mail.load ≡ true }
        ensures of { OnOk result (self.new.of ≡ self.old.of) }
        ensures channels { OnOk result (vec_len self.new.channels ≡ vec_len self.old.channels) }
        ensures work { OnOk result (client_work self.new ≡ client_work self.old) }
        ensures ran { OnOk result (RanMessage self.old self.new mail) }
        ensures agree { OnOk result ((s : Script) (ran : List Tag) → Follows s self.old ran → AllAgree s self.old ran devices.old
            → AllAgree s self.new (ran ++ mail.tag ∷ []) devices.new) }
        ensures ends { OnOk result (ends_of devices.new ≡ ends_of devices.old) }
        ensures given { OnOk result (map (λ v. v.given) devices.new ≡ map (λ v. v.given) devices.old) }
    {
        match mail.tag.what {
            What::Reply { op } => {
                self.take_reply(op, mail.load)?;
                Ok(())
            }
            What::PutSelf { device } => {
                let image = device as usize;
                if image >= self.channels.len() {
                    return Ok(());
                }
                self.take_put(image, devices);
                Ok(())
            }
            _ => Ok(()),
        }
    }

    fn take_reply(&mut self, op: u32, load: Load) -> Result<(), NoMemory>
        requires { carries_bytes load ≡ true }
        ensures { OnOk result (Received self.old self.new op load) }
    {
        Client::forget(&mut self.unanswered, op);
        match Client::reply_of(op, load) {
            Some(reply) => self.replies.push(reply),
            None => Ok(()),
        }
    }

    // Destroys a channel without references, unless another such message is pending.
    fn take_put(&mut self, device: usize, devices: &mut [Device])
        requires devices { length devices.old ≡ vec_len self.old.channels }
        requires device { device < vec_len self.old.channels }
        ensures client { IfSome (slice_get self.old.channels.items device) (λ k. TookPut self.old self.new device k) }
        ensures devices { IfSome (slice_get self.old.channels.items device) (λ k.
            IfSome (slice_get devices.old device) (λ v. devices.new ≡ devices_after devices.old device k v)) }
    {
        let channel = self.channels[device];
        let after = channel.after_put();
        self.channels[device] = after;
        if after.ordinal.is_none() && channel.ordinal.is_some() {
            self.standing = self.standing.saturating_sub(1);
            devices[device].release();
        }
    }

    // Takes an op away from those that are unanswered.
    fn forget(unanswered: &mut Vec<u32>, op: u32)
        ensures { unanswered.new.items ≡ filter (λ j. not (j == op)) unanswered.old.items }
    {
        unanswered.retain(|&sent| sent != op);
    }

    // What a reply to the op is listed as.
    fn reply_of(op: u32, load: Load) -> Option<Reply>
        requires { carries_bytes load ≡ true }
        ensures reply { result ≡ reply_carried (what.Reply op) load }
        ensures bytes { IfSome result (λ r. has_bytes r.answer ≡ true) }
    {
        match load {
            Load::Replied(answer) => Some(Reply { op, answer }),
            Load::Write { .. } => None,
            Load::Read { .. } => None,
            Load::Nothing => None,
        }
    }
}
