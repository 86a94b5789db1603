//! What the app keeps.
ghost use Rattle.std.specs.Prelude.{◌≡◌, ℕ, ◌<◌, ◌^◌, [], true, false, replicate, length, All, Some, IfOk};
ghost use Rattle.std.specs.Arc.{arc_value};
ghost use Rattle.lw_thread.specs.Acts.{Known, no_asks};
ghost use Rattle.lw_device.specs.Rows.{new_row};
ghost use Rattle.lw_channel.specs.Channels.{new_set};
ghost use Rattle.lw_model.specs.Threads.{thread_count};
ghost use Rattle.lw_whole.specs.Letters.{Letter};
ghost use Rattle.lw_mail.specs.Runs.{Run};
ghost use Rattle.lw_app.specs.Keeping.{Keeps};

use crate::flags::Flags;
use lw_base::{Items, NoMemory};
use lw_channel::ChannelSet;
use lw_mail::Mail;
use lw_model::{Called, Did, Script};
use std::alloc::Global;
use std::sync::Arc;

/// The number of the app's thread.
pub const APP: u32 = 0;

/// How far the app is.
#[derive(Clone, Copy, PartialEq, Eq, Debug)]
pub enum Stage {
    /// It waits for the Done of each client.
    Waiting,
    /// It has unregistered the devices, and owes callbacks.
    Calling,
    /// It has sent a Stop to each owner.
    Stopped,
}

/// The app. It passes tokens on and takes in what clients that are done hand over, until each of them is.
///
/// It keeps each message that no run sends to it or back to it; then it never ends.
#[derive(Drop)]
pub struct App {
    pub alloc: Global,
    /// The run's script.
    pub script: Arc<Script, Global>,
    /// Its set of channels, in which no channel ever stands. It has taken in the set of each client that is done.
    pub set: ChannelSet,
    /// Of each client, in the script's order, whether its Done is still to come.
    pub awaited: Flags,
    /// Of each device whether its callback is owed.
    pub owed: Flags,
    /// The answers of the devices, in their order.
    pub did: Items<Did>,
    /// The callbacks that it made.
    pub called: Items<Called>,
    /// The messages that it keeps.
    pub kept: Items<Mail>,
    pub stage: Stage,
}

impl App {
    /// The app of a run that has done nothing. The set is its thread's. The script has fewer than 2^32 clients and images.
    ///
    /// It is lawful for thread 0 where that has run and sent nothing, the script is the run's, and the set is that of a row of the
    /// run's registry that was never used. It has no poller yet; `apps_take_a_poller` says that it may be given one.
    pub fn new(alloc: Global, script: Arc<Script, Global>, set: ChannelSet) -> Result<App, NoMemory>
        requires clients { length (arc_value script).clients < 2 ^ 32 }
        requires images { length (arc_value script).images < 2 ^ 32 }
        ensures made { IfOk result (λ app. app ≡ record {
          alloc = alloc;
          script = script;
          set = set;
          awaited = replicate (length (arc_value script).clients) true;
          owed = replicate (length (arc_value script).images) false;
          did = [];
          called = [];
          kept = [];
          stage = Stage.Waiting;
        }) }
        ensures lawful { IfOk result (λ app. (run : Run) (k : Known Letter Run) → arc_value script ≡ run.script
            → length run.registry ≡ length run.script.images → set ≡ new_set (new_row run.registry 0)
            → k.family ≡ Some run → k.thread ≡ 0 → k.ran ≡ [] → length k.sent ≡ thread_count run.script
            → All (λ ls. ls ≡ []) k.sent → Keeps k no_asks app) }
    {
        let clients = script.clients.len() as u32;
        let images = script.images.len() as u32;
        let did = Vec::with_capacity(alloc, images as usize)?;
        let called = Vec::with_capacity(alloc, images as usize)?;
        Ok(App {
            alloc,
            script,
            set,
            awaited: Flags::all(alloc, clients)?,
            owed: Flags::none(alloc, images)?,
            did: Items::from_vec(did),
            called: Items::from_vec(called),
            kept: Items::new(alloc),
            stage: Stage::Waiting,
        })
    }
}
