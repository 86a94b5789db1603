//! How a client is made.
ghost use Rattle.std.specs.Prelude.{◌≡◌, true, false, [], length, replicate, Some, IfOk};
ghost use Rattle.std.specs.Arc.{arc_value};
ghost use Rattle.lw_model.specs.Threads.{is_client, ops_of, depth_of, thread_count};
ghost use Rattle.lw_thread.specs.Acts.{Known, no_asks};
ghost use Rattle.lw_whole.specs.Letters.{Letter};
ghost use Rattle.lw_mail.specs.Runs.{Run};
ghost use Rattle.lw_client.specs.Clients.{no_use};
ghost use Rattle.lw_client.specs.Keeping.{Keeps, MayBegin, first_poller};

use crate::client::{Client, Stage, Use, Waits};
use lw_base::{Items, NoMemory};
use lw_channel::ChannelSet;
use lw_model::Script;
use lw_ops::Slots;
use lw_pool::PoolPass;
use std::alloc::Global;
use std::sync::Arc;

// How many ops a client has, and its depth.
fn size_of(script: &Script, client: u32) -> (usize, u32)
    requires { is_client script.now client ≡ true }
    ensures ops { result.0 ≡ length (ops_of script.now client) }
    ensures depth { result.1 ≡ depth_of script.now client }
{
    let place = client as usize - 1;
    let of = &script.clients.as_slice()[place];
    (of.ops.len(), of.depth)
}

impl Client {
    /// The client of a script that is thread `thread` of its run, before its first op. The set and the pass are the thread's. Room is
    /// taken for a line an op.
    ///
    /// It is lawful for a thread of that number that has run and sent nothing, where the script is the run's, each of its ops is one that
    /// a client may have, the set is that of a row that was not used, and the pass has lent nothing: without a poller, and once the first
    /// active one is added.
    pub fn new(
        alloc: Global,
        script: Arc<Script, Global>,
        thread: u32,
        set: ChannelSet,
        pool: PoolPass,
    ) -> Result<Client, NoMemory>
        requires { is_client (arc_value script) thread ≡ true }
        ensures made { IfOk result (λ c. c ≡ record {
          alloc = alloc;
          script = script;
          thread = thread;
          depth = depth_of (arc_value script) thread;
          set = Some set;
          pool = pool;
          uses = replicate (length (arc_value script).images) no_use;
          unanswered = replicate (length (ops_of (arc_value script) thread)) false;
          requests = 0;
          next = 0;
          waits = Waits.Nothing;
          stage = Stage.Runs;
          did = [];
          called = [];
          replies = [];
          seen = [];
          kept = [];
        }) }
        ensures lawful { IfOk result (λ c. (run : Run) (k : Known Letter Run) → MayBegin run thread c
            → k.family ≡ Some run → k.thread ≡ thread → length k.sent ≡ thread_count run.script
            → Keeps k no_asks c × Keeps k first_poller c) }
    {
        let (ops, depth) = size_of(&script, thread);
        let images = script.images.len();
        let unused = Use {
            requests: 0,
            puts: 0,
            owes: false,
        };
        let uses = vec![in alloc; unused; images]?;
        let unanswered = vec![in alloc; false; ops]?;
        let did = Vec::with_capacity(alloc, ops)?;
        Ok(Client {
            alloc,
            script,
            thread,
            depth,
            set: Some(set),
            pool,
            uses: Slots::from_vec(uses),
            unanswered: Slots::from_vec(unanswered),
            requests: 0,
            next: 0,
            waits: Waits::Nothing,
            stage: Stage::Runs,
            did: Items::from_vec(did),
            called: Items::new(alloc),
            replies: Items::new(alloc),
            seen: Items::new(alloc),
            kept: Items::new(alloc),
        })
    }
}
