//! The loop: the app, the client and the owner take turns, and their messages are carried between them.
ghost use Rattle.std.specs.Prelude.{◌≡◌, [], cond, false, OnOk, IfOk};

use crate::acts::Acts;
use crate::app::{APP, App};
use crate::client::Client;
use crate::device::Device;
use crate::owner::Owner;
use crate::posts::{CLIENT, OWNER, Posts};
use lw_base::NoMemory;
use std::alloc::Global;

/// How many messages a thread runs in one poll.
const MESSAGES_OF_A_POLL: u32 = 8;

/// A run of one client on one image.
#[derive(Drop)]
pub struct Target {
    pub app: App,
    pub client: Client,
    pub owner: Owner,
    pub devices: Vec<Device>,
    pub posts: Posts,
    pub acts: Acts,
}

impl Target {
    ghost use Rattle.lw_target.specs.Turns.{IsRunning, Turned, Still, CanRest, MayRest};
    ghost use Rattle.lw_target.specs.InOrder.{IsAtRest, IsInOrder};
    ghost use Rattle.lw_model.specs.declared.script.Script.{Script};

    /// Turns the threads as long as one of them has anything to do.
    pub fn run(&mut self, alloc: Global) -> Result<(), NoMemory>
        requires { IsRunning self.old }
        ensures turned { OnOk result (Turned self.old self.new 0) }
        ensures rests { OnOk result ((s : Script) → IsInOrder s self.old → IsAtRest self.new) }
    {
        while self.turn(alloc)? {}
        Ok(())
    }

    // One poll of each thread, in order. Answers whether one of them worked.
    fn turn(&mut self, alloc: Global) -> Result<bool, NoMemory>
        requires { IsRunning self.old }
        ensures turned { IfOk result (λ worked. Turned self.old self.new (cond worked 1 0)) }
        ensures rests { IfOk result (λ worked. (s : Script) → IsInOrder s self.old → worked ≡ false → IsAtRest self.new) }
    {
        let mut worked = self.run_app()?;
        worked |= self.tick_app()?;
        worked |= self.run_client()?;
        worked |= self.tick_client(alloc)?;
        worked |= self.run_owner(alloc)?;
        Ok(worked)
    }

    // Runs up to eight messages of the app.
    fn run_app(&mut self) -> Result<bool, NoMemory>
        requires { IsRunning self.old }
        ensures turned { IfOk result (λ worked. Turned self.old self.new (cond worked 1 0)) }
        ensures rests { IfOk result (λ worked. worked ≡ false
            → Still self.old self.new × (self.old.posts.app.waiting ≡ [])) }
    {
        if !self.run_app_once()? {
            return Ok(false);
        }
        for _ in 1..MESSAGES_OF_A_POLL {
            if !self.run_app_once()? {
                return Ok(true);
            }
        }
        Ok(true)
    }

    fn run_app_once(&mut self) -> Result<bool, NoMemory>
        requires { IsRunning self.old }
        ensures turned { IfOk result (λ worked. Turned self.old self.new (cond worked 1 0)) }
        ensures rests { IfOk result (λ worked. worked ≡ false
            → Still self.old self.new × (self.old.posts.app.waiting ≡ [])) }
    {
        let Some(mail) = self.posts.app.take()? else {
            return Ok(false);
        };
        self.app.run(&mail);
        Ok(true)
    }

    fn tick_app(&mut self) -> Result<bool, NoMemory>
        requires { IsRunning self.old }
        ensures turned { IfOk result (λ worked. Turned self.old self.new (cond worked 1 0)) }
        ensures rests { IfOk result (λ worked. (s : Script) → IsInOrder s self.old → worked ≡ false
            → Still self.old self.new × MayRest self.old) }
    {
        self.acts.begin(self.posts.app.ran());
        let worked = self.app.tick(&mut self.devices, &mut self.acts)?;
        self.posts.carry(APP, &mut self.acts)?;
        Ok(worked)
    }

    // Runs up to eight messages of the client.
    fn run_client(&mut self) -> Result<bool, NoMemory>
        requires { IsRunning self.old }
        ensures turned { IfOk result (λ worked. Turned self.old self.new (cond worked 1 0)) }
        ensures rests { IfOk result (λ worked. worked ≡ false
            → Still self.old self.new × (self.old.posts.client.waiting ≡ [])) }
    {
        if !self.run_client_once()? {
            return Ok(false);
        }
        for _ in 1..MESSAGES_OF_A_POLL {
            if !self.run_client_once()? {
                return Ok(true);
            }
        }
        Ok(true)
    }

    fn run_client_once(&mut self) -> Result<bool, NoMemory>
        requires { IsRunning self.old }
        ensures turned { IfOk result (λ worked. Turned self.old self.new (cond worked 1 0)) }
        ensures rests { IfOk result (λ worked. worked ≡ false
            → Still self.old self.new × (self.old.posts.client.waiting ≡ [])) }
    {
        let Some(mail) = self.posts.client.take()? else {
            return Ok(false);
        };
        self.client.run(mail, &mut self.devices)?;
        Ok(true)
    }

    fn tick_client(&mut self, alloc: Global) -> Result<bool, NoMemory>
        requires { IsRunning self.old }
        ensures turned { IfOk result (λ worked. Turned self.old self.new (cond worked 1 0)) }
        ensures rests { IfOk result (λ worked. worked ≡ false → Still self.old self.new × CanRest self.old) }
    {
        self.acts.begin(self.posts.client.ran());
        let worked = self.client.tick(alloc, &mut self.devices, &mut self.acts)?;
        self.posts.carry(CLIENT, &mut self.acts)?;
        Ok(worked)
    }

    // Runs up to eight messages of the owner.
    fn run_owner(&mut self, alloc: Global) -> Result<bool, NoMemory>
        requires { IsRunning self.old }
        ensures turned { IfOk result (λ worked. Turned self.old self.new (cond worked 1 0)) }
        ensures rests { IfOk result (λ worked. worked ≡ false
            → Still self.old self.new × (self.old.posts.owner.waiting ≡ [])) }
    {
        if !self.run_owner_once(alloc)? {
            return Ok(false);
        }
        for _ in 1..MESSAGES_OF_A_POLL {
            if !self.run_owner_once(alloc)? {
                return Ok(true);
            }
        }
        Ok(true)
    }

    // Runs the owner's next message, and carries its reply before the one after it.
    fn run_owner_once(&mut self, alloc: Global) -> Result<bool, NoMemory>
        requires { IsRunning self.old }
        ensures turned { IfOk result (λ worked. Turned self.old self.new (cond worked 1 0)) }
        ensures rests { IfOk result (λ worked. worked ≡ false
            → Still self.old self.new × (self.old.posts.owner.waiting ≡ [])) }
    {
        let Some(mail) = self.posts.owner.take()? else {
            return Ok(false);
        };
        self.acts.begin(self.posts.owner.ran());
        self.owner.run(alloc, mail, &mut self.acts)?;
        self.posts.carry(OWNER, &mut self.acts)?;
        Ok(true)
    }
}
