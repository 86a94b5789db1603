//! A client: it does its ops in order, each when it may, gives back its channels and tells the app.
ghost use Rattle.std.specs.Prelude.{List, ◌≡◌, ◌<◌, ◌≤◌, ◌+◌, ◌-◌, ◌++◌, ◌∷◌, [], length, vec_len, cond, map, filter, not, ◌==◌, true, false, None, Some, Option, OnOk, IfOk, IfSome, IsTrue, MatchOption, slice_get};
ghost use Rattle.std.specs.List.{All, list_all};
ghost use Rattle.lw_base.specs.declared.message.What.{What};
ghost use Rattle.lw_model.specs.Printable.{has_bytes};
ghost use Rattle.lw_target.specs.Actions.{device_of, action_on};
ghost use Rattle.lw_target.specs.Effects.{AllHold, puts_of, gave_back};
ghost use Rattle.lw_target.specs.Messages.{carries_bytes, operands};
ghost use Rattle.lw_target.specs.Ops.{is_servable, asks_bytes};

use crate::action::action_of;
use crate::acts::Acts;
use crate::app::APP;
use crate::channel::{Channel, give_back_all};
use crate::device::Device;
use crate::mail::{Load, Mail, load_of};
use lw_base::{NoMemory, What};
use lw_model::{Answer, ClientOf, Did, Items, Reply};
use std::alloc::Global;

/// How many ops a client does in one tick.
const OPS_OF_A_TICK: u32 = 8;

/// A client.
#[derive(Drop)]
pub struct Client {
    pub thread: u32,
    pub first_owner: u32,
    pub of: ClientOf,
    /// The place of the next op.
    pub next: usize,
    pub channels: Vec<Channel>,
    /// How many channels stand.
    pub standing: u32,
    /// The ops of the requests that no reply was run for, oldest first. They are at most as many as the depth, 32.
    pub unanswered: Vec<u32>,
    pub closed: bool,
    pub done: bool,
    pub did: Items<Did>,
    pub replies: Items<Reply>,
    ghost within: { next ≤ length of.ops },
    ghost short: { length of.ops ≤ 100000 },
    ghost few: { vec_len channels ≤ 16 },
    ghost held: { AllHold next channels.items },
    ghost owners: { first_owner ≤ 65 },
    ghost serves: { list_all (is_servable (vec_len channels)) of.ops ≡ true },
    ghost replied: { list_all (λ r. has_bytes r.answer) replies ≡ true },
}

impl Client {
    ghost use Rattle.lw_target.specs.Client.{Handled, IsFresh, Listed, Asking, Closing, Paused, Telling, Progress};
    ghost use Rattle.lw_target.specs.ClientCalls.{AllAgree, Rests, WentOn};
    ghost use Rattle.lw_target.specs.ClientLog.{Follows, IsOf, sent_so_far, was_refused};
    ghost use Rattle.lw_model.specs.declared.script.Script.{Script};
    ghost use Rattle.lw_target.specs.declared.device.Device.{Device};
    ghost use Rattle.lw_target.specs.Answers.{answer_to};
    ghost use Rattle.lw_target.specs.Work.{client_work};

    /// The client of thread `thread`, before its first op. The owner of device d is thread `first_owner` + d.
    pub fn new(
        alloc: Global,
        thread: u32,
        first_owner: u32,
        devices: usize,
        of: ClientOf,
    ) -> Result<Client, NoMemory>
        requires owners { first_owner ≤ 65 }
        requires few { devices ≤ 16 }
        requires short { length of.ops ≤ 100000 }
        requires serves { list_all (is_servable devices) of.ops ≡ true }
        ensures of { IfOk result (λ c. c.of ≡ of) }
        ensures channels { IfOk result (λ c. vec_len c.channels ≡ devices) }
        ensures thread { IfOk result (λ c. c.thread ≡ thread) }
        ensures first_owner { IfOk result (λ c. c.first_owner ≡ first_owner) }
        ensures fresh { IfOk result IsFresh }
        ensures follows { IfOk result (λ c. (s : Script) → IsOf s c → Follows s c []) }
        ensures sent { IfOk result (λ c. (s : Script) → sent_so_far s c [] ≡ []) }
        ensures refused { IfOk result (λ c. was_refused c [] ≡ false) }
        ensures agree { IfOk result (λ c. (s : Script) (devices : List Device) → All (λ v. (v.standing ≡ 0) × (v.given ≡ 0)) devices
            → AllAgree s c [] devices) }
    {
        let client = Client::empty(alloc, thread, first_owner, devices, of)?;
        Ok(client)
    }

    fn empty(
        alloc: Global,
        thread: u32,
        first_owner: u32,
        devices: usize,
        of: ClientOf,
    ) -> Result<Client, NoMemory>
        requires owners { first_owner ≤ 65 }
        requires few { devices ≤ 16 }
        requires short { length of.ops ≤ 100000 }
        requires serves { list_all (is_servable devices) of.ops ≡ true }
        ensures of { IfOk result (λ c. c.of ≡ of) }
        ensures channels { IfOk result (λ c. vec_len c.channels ≡ devices) }
        ensures thread { IfOk result (λ c. c.thread ≡ thread) }
        ensures first_owner { IfOk result (λ c. c.first_owner ≡ first_owner) }
        ensures fresh { IfOk result IsFresh }
    {
        Ok(Client {
            thread,
            first_owner,
            of,
            next: 0,
            channels: vec![in alloc; Channel::new(); devices]?,
            standing: 0,
            unanswered: Vec::new(alloc),
            closed: false,
            done: false,
            did: Items::new(alloc),
            replies: Items::new(alloc),
        })
    }

    /// Does up to eight of its next ops, stopping at the first that has to wait; behind the last one, with no request
    /// unanswered, gives back what it holds; and once no channel stands tells the app and asks to end. Answers whether
    /// it listed or sent anything.
    pub fn tick(
        &mut self,
        alloc: Global,
        devices: &mut [Device],
        acts: &mut Acts,
    ) -> Result<bool, NoMemory>
        requires devices { length devices.old ≡ vec_len self.old.channels }
        ensures progress { IfOk result (λ worked. Progress self.old self.new acts.old acts.new (cond worked 1 0)) }
        ensures went_on { OnOk result (WentOn self.old self.new acts.old acts.new devices.old devices.new) }
        ensures rests { IfOk result (λ worked. worked ≡ false → Rests self.old self.new acts.old acts.new devices.old devices.new) }
    {
        let mut worked = self.do_some(alloc, devices, acts)?;
        worked |= self.close_at_end(acts)?;
        worked |= self.tell_app(acts)?;
        Ok(worked)
    }

    // Does up to eight of its next ops.
    fn do_some(
        &mut self,
        alloc: Global,
        devices: &mut [Device],
        acts: &mut Acts,
    ) -> Result<bool, NoMemory>
        requires devices { length devices.old ≡ vec_len self.old.channels }
        ensures progress { IfOk result (λ worked. Progress self.old self.new acts.old acts.new (cond worked 1 0)) }
        ensures most { OnOk result (self.new.next ≤ self.old.next + 8) }
        ensures went_on { OnOk result (WentOn self.old self.new acts.old acts.new devices.old devices.new) }
        ensures paused { IfOk result (λ worked. worked ≡ false → Paused self.old self.new acts.old acts.new devices.old devices.new) }
    {
        let mut worked = false;
        for _ in 0..OPS_OF_A_TICK {
            if !self.do_next(alloc, devices, acts)? {
                return Ok(worked);
            }
            worked = true;
        }
        Ok(worked)
    }

    // Does the next op, unless there is none or it has to wait. Answers whether it did.
    fn do_next(
        &mut self,
        alloc: Global,
        devices: &mut [Device],
        acts: &mut Acts,
    ) -> Result<bool, NoMemory>
        requires devices { length devices.old ≡ vec_len self.old.channels }
        ensures progress { IfOk result (λ worked. Progress self.old self.new acts.old acts.new (cond worked 1 0)) }
        ensures one { IfOk result (λ worked. self.new.next ≡ self.old.next + cond worked 1 0) }
        ensures went_on { OnOk result (WentOn self.old self.new acts.old acts.new devices.old devices.new) }
        ensures paused { IfOk result (λ worked. worked ≡ false → Paused self.old self.new acts.old acts.new devices.old devices.new) }
    {
        if self.next == self.of.ops.len() {
            return Ok(false);
        }
        let action = action_of(&self.of.ops.as_slice()[self.next], self.channels.len());
        let Some(answer) = self.answer(action, devices) else {
            return Ok(false);
        };
        let image = action.device();
        self.carry_out(alloc, image, answer, acts)?;
        devices[image as usize].count(answer);
        Ok(true)
    }

    // Lists the answer of the next op, counts it and sends what it asks for.
    fn carry_out(
        &mut self,
        alloc: Global,
        image: u32,
        answer: Answer,
        acts: &mut Acts,
    ) -> Result<(), NoMemory>
        requires image { image < vec_len self.old.channels }
        requires more { self.old.next < length self.old.of.ops }
        ensures { OnOk result (IfSome (slice_get self.old.of.ops self.old.next) (λ o.
            IfSome (slice_get self.old.channels.items image) (λ k.
            Handled self.old self.new acts.old acts.new image k o answer))) }
    {
        self.list(image as usize, answer, acts.ran())?;
        match answer {
            Answer::Deferred => acts.send(
                self.thread,
                What::PutSelf { device: image },
                Load::Nothing,
            ),
            Answer::Sent => self.ask(alloc, image, acts),
            _ => Ok(()),
        }
    }

    // Lists the answer of the next op, and counts it.
    fn list(&mut self, image: usize, answer: Answer, at: u64) -> Result<(), NoMemory>
        requires image { image < vec_len self.old.channels }
        requires more { self.old.next < length self.old.of.ops }
        ensures { OnOk result (IfSome (slice_get self.old.channels.items image) (λ k.
            Listed self.old self.new at image k answer)) }
    {
        self.did.push(Did {
            at,
            op: self.next as u32,
            answer,
        })?;
        let channel = self.channels[image].after(answer);
        self.next += 1;
        self.channels[image] = channel;
        if let Answer::Given { .. } = answer {
            self.standing = self.standing.saturating_add(1);
        }
        Ok(())
    }

    // Sends the request of the op that was listed last.
    fn ask(&mut self, alloc: Global, image: u32, acts: &mut Acts) -> Result<(), NoMemory>
        requires image { image < vec_len self.old.channels }
        requires listed { 0 < self.old.next }
        ensures { OnOk result (IfSome (slice_get self.old.of.ops (self.old.next - 1)) (λ o.
            Asking self.old self.new acts.old acts.new image (self.old.next - 1) o)) }
    {
        let place = self.next - 1;
        let load = load_of(alloc, &self.of.ops.as_slice()[place])?;
        let op = place as u32;
        acts.send(self.first_owner + image, What::Request { op }, load)?;
        self.unanswered.push(op)?;
        Ok(())
    }

    // Closes once, where all ops are done and no request is unanswered.
    fn close_at_end(&mut self, acts: &mut Acts) -> Result<bool, NoMemory>
        ensures progress { IfOk result (λ worked. Progress self.old self.new acts.old acts.new (cond worked 1 0)) }
        ensures at_end { IfOk result (λ worked. IsTrue worked → (self.old.next ≡ length self.old.of.ops)
            × (vec_len self.old.unanswered ≡ 0)) }
        ensures went_on { OnOk result ((devices : List Device) → WentOn self.old self.new acts.old acts.new devices devices) }
        ensures waits { IfOk result (λ worked. worked ≡ false → (self.new ≡ self.old) × (acts.new ≡ acts.old)
            × (self.old.next ≡ length self.old.of.ops → self.old.closed ≡ false → 0 < length self.old.unanswered.items)) }
    {
        if self.closed || self.next < self.of.ops.len() || self.unanswered.len() > 0 {
            return Ok(false);
        }
        self.close(acts)?;
        Ok(true)
    }

    // Lists that it closes, and gives back all references.
    fn close(&mut self, acts: &mut Acts) -> Result<(), NoMemory>
        ensures { OnOk result (Closing self.old self.new acts.old acts.new) }
    {
        self.did.push(Did {
            at: acts.ran(),
            op: self.next as u32,
            answer: Answer::Closed,
        })?;
        self.send_puts(acts)?;
        give_back_all(&mut self.channels);
        self.closed = true;
        Ok(())
    }

    // Sends itself a message for each device that it holds references of, in device order.
    fn send_puts(&self, acts: &mut Acts) -> Result<(), NoMemory>
        ensures { OnOk result (acts.new ≡ record acts.old {
          sends = acts.old.sends ++ puts_of self.now.thread 0 self.now.channels.items;
        }) }
    {
        for image in 0..self.channels.len() {
            if self.channels[image].references > 0 {
                let device = image as u32;
                acts.send(self.thread, What::PutSelf { device }, Load::Nothing)?;
            }
        }
        Ok(())
    }

    // Tells the app once, where it has closed and no channel stands.
    fn tell_app(&mut self, acts: &mut Acts) -> Result<bool, NoMemory>
        ensures progress { IfOk result (λ worked. Progress self.old self.new acts.old acts.new (cond worked 1 0)) }
        ensures told { IfOk result (λ worked. IsTrue worked → IsTrue self.old.closed × (self.old.standing ≡ 0)) }
        ensures went_on { OnOk result ((devices : List Device) → WentOn self.old self.new acts.old acts.new devices devices) }
        ensures waits { IfOk result (λ worked. worked ≡ false → (self.new ≡ self.old) × (acts.new ≡ acts.old)
            × (self.old.done ≡ false → self.old.closed ≡ true → 0 < self.old.standing)) }
    {
        if self.done || !self.closed || self.standing > 0 {
            return Ok(false);
        }
        self.tell(acts)?;
        Ok(true)
    }

    fn tell(&mut self, acts: &mut Acts) -> Result<(), NoMemory>
        ensures { OnOk result (Telling self.old self.new acts.old acts.new) }
    {
        acts.send(APP, What::Done, Load::Nothing)?;
        self.done = true;
        Ok(())
    }

    /// Whether it has told the app and asked to end.
    pub fn is_done(&self) -> bool
        ensures { result ≡ self.now.done }
    {
        self.done
    }

    /// The client of the script, and what it listed.
    pub fn into_logs(self) -> (ClientOf, Items<Did>, Items<Reply>)
        ensures of { result.0 ≡ self.of }
        ensures did { result.1 ≡ self.did }
        ensures listed { result.2 ≡ self.replies }
        ensures replies { list_all (λ r. has_bytes r.answer) result.2 ≡ true }
    {
        (self.of, self.did, self.replies)
    }
}
