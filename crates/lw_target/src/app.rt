//! The app: once every client is done it unregisters the devices, makes their callbacks and stops the owners.
ghost use Rattle.std.specs.Prelude.{[], ◌∷◌, ◌++◌, min, None, is_none, slice_set, replicate, ◌≡◌, ◌≢◌, ◌<◌, ◌≤◌, ◌+◌, ◌↔◌, length, vec_len, cond, true, false, nat_lt, count_by, slice_index_or, option_to_list, OnOk, IfOk, IsTrue};
ghost use Rattle.std.specs.List.{All, list_all, list_any};

use crate::acts::Acts;
use crate::device::Device;
use crate::mail::{Load, Mail};
use lw_base::{NoMemory, What};
use lw_model::{Answer, Called, Did, Items};
use std::alloc::Global;

/// The app's thread.
pub const APP: u32 = 0;

/// The app.
#[derive(Drop)]
pub struct App {
    pub clients: u32,
    /// How many clients have told it that they are done.
    pub done: u32,
    /// Whether it has unregistered the devices.
    pub began: bool,
    /// Of each device whether its callback is owed.
    pub owed: Vec<bool>,
    pub ended: bool,
    did: Items<Did>,
    called: Items<Called>,
    ghost few: { vec_len owed ≤ 16 },
    ghost clients_fit: { clients ≤ 64 },
    ghost devices: { list_all (λ c. nat_lt c.device (vec_len owed)) called ≡ true },
}

impl App {
    ghost use Rattle.lw_target.specs.declared.device.Device.{Device};
    ghost use Rattle.lw_target.specs.Answers.{unregister_answer};
    ghost use Rattle.lw_target.specs.App.{Advance, IsStop, IsDue, IsUnused, Ends, Begins, Calls, Stops, SameCalls, SameLines, unregistered, called_back};
    ghost use Rattle.lw_target.specs.AppCalls.{BeginsAll, CallsAll, StopsAll, Ticked, callback, still_owed, behind_callback};
    ghost use Rattle.lw_target.specs.Work.{app_work};

    /// The app of a run with so many clients and devices.
    pub fn new(alloc: Global, clients: u32, devices: usize) -> Result<App, NoMemory>
        requires clients { clients ≤ 64 }
        requires few { devices ≤ 16 }
        ensures devices { IfOk result (λ a. vec_len a.owed ≡ devices) }
        ensures clients { IfOk result (λ a. a.clients ≡ clients) }
        ensures fresh { IfOk result (λ a. (a.done ≡ 0) × (a.began ≡ false) × (a.ended ≡ false)) }
        ensures nothing { IfOk result (λ a. (a.owed.items ≡ replicate devices false) × (a.did ≡ []) × (a.called ≡ [])) }
    {
        Ok(App {
            clients,
            done: 0,
            began: false,
            owed: vec![in alloc; false; devices]?,
            ended: false,
            did: Items::new(alloc),
            called: Items::new(alloc),
        })
    }

    /// Runs a message: a client's `Done` is counted.
    pub fn run(&mut self, mail: &Mail)
        ensures devices { vec_len self.new.owed ≡ vec_len self.old.owed }
        ensures work { app_work self.new ≡ app_work self.old }
        ensures done { self.new.done ≤ self.old.done + 1 }
        ensures counted { mail.now.tag.what ≡ What.Done → self.new ≡ record self.old {
          done = min (self.old.done + 1) 4294967295;
        } }
        ensures others { mail.now.tag.what ≢ What.Done → self.new ≡ self.old }
    {
        if let What::Done = mail.tag.what {
            self.done = self.done.saturating_add(1);
        }
    }

    /// Once all clients are done: unregisters the devices, makes the callbacks that are due, and where none is owed
    /// stops the owners and asks to end. Answers whether it listed or sent anything.
    pub fn tick(&mut self, devices: &mut [Device], acts: &mut Acts) -> Result<bool, NoMemory>
        requires { length devices.old ≡ vec_len self.old.owed }
        ensures advance { IfOk result (λ worked. Advance self.old self.new acts.old acts.new (cond worked 1 0)) }
        ensures early { self.old.done < self.old.clients
            → (self.new ≡ self.old) × (acts.new ≡ acts.old) × (devices.new ≡ devices.old) }
        ensures ended { self.old.ended ≡ true
            → (self.new ≡ self.old) × (acts.new ≡ acts.old) × (devices.new ≡ devices.old) }
        ensures each { OnOk result (self.old.clients ≤ self.old.done → self.old.ended ≡ false
            → Ticked self.old self.new acts.old acts.new devices.old devices.new) }
        ensures over { IfOk result (λ worked. IsDue self.old → (v : Device) → devices.old ≡ v ∷ [] → IsUnused v
            → (worked ≡ true) × Ends self.old self.new acts.old acts.new v devices.new) }
    {
        if self.ended || self.done < self.clients {
            return Ok(false);
        }
        let mut worked = self.begin(devices, acts.ran())?;
        worked |= self.call_back(devices, acts.ran())?;
        worked |= self.stop_owners(acts)?;
        Ok(worked)
    }

    // Unregisters each device, unless it has done so.
    fn begin(&mut self, devices: &mut [Device], at: u64) -> Result<bool, NoMemory>
        requires { length devices.old ≡ vec_len self.old.owed }
        ensures devices { OnOk result (vec_len self.new.owed ≡ vec_len self.old.owed) }
        ensures ended { OnOk result (self.new.ended ≡ self.old.ended) }
        ensures work { IfOk result (λ worked. app_work self.new + cond worked 1 0 ≤ app_work self.old) }
        ensures each { OnOk result (self.old.began ≡ false → BeginsAll self.old self.new at devices.old devices.new) }
        ensures again { OnOk result (self.old.began ≡ true → (self.new ≡ self.old) × (devices.new ≡ devices.old)) }
        ensures one { IfOk result (λ worked. self.old.began ≡ false → (v : Device) → devices.old ≡ v ∷ [] → v.shut_by ≡ None
            → (worked ≡ true) × Begins self.old self.new at v devices.new) }
    {
        if self.began {
            return Ok(false);
        }
        self.began = true;
        for place in 0..devices.len() {
            self.shut(place, &mut devices[place], at)?;
        }
        Ok(true)
    }

    // Unregisters a device, and owes its callback where that began here.
    fn shut(&mut self, place: usize, device: &mut Device, at: u64) -> Result<(), NoMemory>
        requires { place < vec_len self.old.owed }
        ensures listed { OnOk result (self.new.did ≡ self.old.did ++ record {
          at = at;
          op = place;
          answer = unregister_answer device.old;
        } ∷ []) }
        ensures owed { self.new.owed.items ≡ slice_set self.old.owed.items place (is_none device.old.shut_by) }
        ensures devices { vec_len self.new.owed ≡ vec_len self.old.owed }
        ensures device { device.new ≡ unregistered device.old }
        ensures began { self.new.began ≡ self.old.began }
        ensures rest { SameCalls self.old self.new }
    {
        self.owed[place] = !device.is_shut();
        let answer = device.unregister(APP);
        self.did.push(Did {
            at,
            op: place as u32,
            answer,
        })
    }

    // Makes each callback that is owed and due.
    fn call_back(&mut self, devices: &mut [Device], at: u64) -> Result<bool, NoMemory>
        requires { length devices.old ≡ vec_len self.old.owed }
        ensures devices { OnOk result (vec_len self.new.owed ≡ vec_len self.old.owed) }
        ensures ended { OnOk result (self.new.ended ≡ self.old.ended) }
        ensures work { IfOk result (λ worked. app_work self.new + cond worked 1 0 ≤ app_work self.old) }
        ensures each { OnOk result (CallsAll self.old self.new at devices.old devices.new) }
        ensures one { IfOk result (λ called. (v : Device) → devices.old ≡ v ∷ [] → v.standing ≡ 0
            → self.old.owed.items ≡ true ∷ [] → Calls self.old self.new at v devices.new) }
    {
        let mut called = false;
        for place in 0..devices.len() {
            called |= self.call_one(place, &mut devices[place], at)?;
        }
        Ok(called)
    }

    // Makes the callback of a device where it is owed and due.
    fn call_one(&mut self, place: usize, device: &mut Device, at: u64) -> Result<bool, NoMemory>
        requires { place < vec_len self.old.owed }
        ensures devices { OnOk result (vec_len self.new.owed ≡ vec_len self.old.owed) }
        ensures rest { OnOk result (SameLines self.old self.new) }
        ensures work { IfOk result (λ made. app_work self.new + cond made 1 0 ≤ app_work self.old) }
        ensures owed { OnOk result (self.new.owed.items ≡ slice_set self.old.owed.items place
            (still_owed (slice_index_or self.old.owed.items place false, device.old))) }
        ensures listed { OnOk result (self.new.called ≡ self.old.called
            ++ option_to_list (callback at place (slice_index_or self.old.owed.items place false, device.old))) }
        ensures device { OnOk result (device.new ≡ behind_callback (slice_index_or self.old.owed.items place false, device.old)) }
        ensures due { OnOk result (slice_index_or self.old.owed.items place false ≡ true → device.old.standing ≡ 0
            → (self.new.owed.items ≡ slice_set self.old.owed.items place false)
            × (self.new.called ≡ self.old.called ++ record { at = at; device = place } ∷ [])
            × (device.new ≡ called_back device.old)) }
    {
        if !self.owed[place] {
            return Ok(false);
        }
        if !device.fire() {
            return Ok(false);
        }
        self.list_call(place, at)?;
        Ok(true)
    }

    // Lists a callback that was owed.
    fn list_call(&mut self, device: usize, at: u64) -> Result<(), NoMemory>
        requires place { device < vec_len self.old.owed }
        requires owed { slice_index_or self.old.owed.items device true ≡ true }
        ensures devices { OnOk result (vec_len self.new.owed ≡ vec_len self.old.owed) }
        ensures ended { OnOk result (self.new.ended ≡ self.old.ended) }
        ensures work { OnOk result (app_work self.new + 1 ≤ app_work self.old) }
        ensures owes { OnOk result (self.new.owed.items ≡ slice_set self.old.owed.items device false) }
        ensures listed { OnOk result (self.new.called ≡ self.old.called ++ record { at = at; device = device } ∷ []) }
        ensures rest { OnOk result (SameLines self.old self.new) }
    {
        self.owed[device] = false;
        self.called.push(Called {
            at,
            device: device as u32,
        })
    }

    // Where no callback is owed, sends a stop to each owner and asks to end.
    fn stop_owners(&mut self, acts: &mut Acts) -> Result<bool, NoMemory>
        requires { self.old.ended ≡ false }
        ensures advance { IfOk result (λ worked. Advance self.old self.new acts.old acts.new (cond worked 1 0)) }
        ensures each { OnOk result (StopsAll self.old self.new acts.old acts.new) }
        ensures one { IfOk result (λ stopped. self.old.owed.items ≡ false ∷ [] → Stops self.old self.new acts.old acts.new) }
    {
        if self.owes_some() {
            return Ok(false);
        }
        for owner in 0..self.owed.len() {
            acts.send(1 + self.clients + owner as u32, What::Stop, Load::Nothing)?;
        }
        self.ended = true;
        Ok(true)
    }

    // Whether a callback is owed.
    fn owes_some(&self) -> bool
        ensures { result ≡ list_any (λ b. b) self.now.owed.items }
    {
        self.owed.iter().any(|owed| *owed)
    }

    /// Whether it has asked to end.
    pub fn has_ended(&self) -> bool
        ensures { result ≡ self.now.ended }
    {
        self.ended
    }

    /// What it listed.
    pub fn into_logs(self) -> (Items<Did>, Items<Called>)
        ensures did { result.0 ≡ self.did }
        ensures called { result.1 ≡ self.called }
        ensures devices { list_all (λ c. nat_lt c.device (vec_len self.owed)) result.1 ≡ true }
    {
        (self.did, self.called)
    }
}
