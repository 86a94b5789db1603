//! A script's run, and the record that it leaves.
ghost use Rattle.std.specs.Prelude.{◌≡◌, ◌<◌, ◌≤◌, ◌*◌, ◌++◌, ◌∷◌, [], true, None, List, length, nat_lt, IfOk, vec_len};
ghost use Rattle.std.specs.List.{list_all};
ghost use Rattle.lw_model.specs.Printable.{has_a_line, has_bytes};
ghost use Rattle.lw_model.specs.ScriptRules.{rule_broken};
ghost use Rattle.lw_model.specs.Lawful.{Lawful};
ghost use Rattle.lw_script_rules.specs.Served.{is_served};
ghost use Rattle.lw_target.specs.Options.{AreServed};
ghost use Rattle.lw_target.specs.Messages.{stated_extent};
ghost use Rattle.lw_target.specs.Ops.{is_servable};
ghost use Rattle.lw_target.specs.Turns.{OpsFit, IsRunning};
ghost use Rattle.lw_model.specs.declared.script.Script.{Script};
ghost use Rattle.lw_target.specs.InOrder.{IsInOrder, IsAtRest};
ghost use Rattle.lw_target.specs.Run.{AreThreads, Leaves, IsOfWholeRun};

use crate::acts::Acts;
use crate::app::App;
use crate::buffers::Buffers;
use crate::client::Client;
use crate::device::Device;
use crate::options::Options;
use crate::owner::Owner;
use crate::posts::{CLIENT, OWNER, Posts};
use crate::turns::Target;
use lw_base::{NoMemory, Tag};
use lw_image::Image;
use lw_model::{
    Called, ClientOf, DeviceEnd, Did, Home, ImageOf, Items, Record, Reply, RoleKind, Script,
    ThreadRecord,
};
use std::alloc::Global;
use std::sync::Wait;

/// Runs a script of one client on one image, whose ops are gets, puts, writes and reads, and answers the record of its
/// run. One reactor runs it, under the static scheduler; the period is listed, and no round is made.
///
/// The record is lawful (docs/lawful.md). The owner of the image reads into two buffers, one of each class, which it takes
/// from a pool of its own before the first turn. The turns end: each leaves less to be done.
pub fn run_script<R: Wait>(
    rt: &R,
    alloc: Global,
    script: Script,
    options: Options,
) -> Result<Record, NoMemory>
    requires accepted { rule_broken script ≡ None }
    requires served { is_served script ≡ true }
    requires options { AreServed options }
    ensures lawful { IfOk result Lawful }
    ensures script { IfOk result (λ r. r.script ≡ script) }
    ensures scheduler { IfOk result (λ r. r.scheduler ≡ options.scheduler) }
    ensures reactors { IfOk result (λ r. r.reactors ≡ options.reactors) }
    ensures period { IfOk result (λ r. r.period ≡ options.period) }
{
    run_whole(rt, alloc, script, options)
}

// The record of a run in which all threads ended.
fn run_whole<R: Wait>(
    rt: &R,
    alloc: Global,
    script: Script,
    options: Options,
) -> Result<Record, NoMemory>
    requires accepted { rule_broken script ≡ None }
    requires served { is_served script ≡ true }
    requires options { AreServed options }
    ensures script { IfOk result (λ r. r.script ≡ script) }
    ensures scheduler { IfOk result (λ r. r.scheduler ≡ options.scheduler) }
    ensures reactors { IfOk result (λ r. r.reactors ≡ options.reactors) }
    ensures period { IfOk result (λ r. r.period ≡ options.period) }
    ensures home { IfOk result (λ r. (r.home.small ≡ script.small) × (r.home.large ≡ script.large)) }
    ensures no_rounds { IfOk result (λ r. (r.span ≡ None) × (r.rounds ≡ [])) }
    ensures whole { IfOk result IsOfWholeRun }
{
    let small = script.small;
    let large = script.large;
    let images = script.images;
    let (mut rest, of) = take_last(script.clients);
    let mut target = begin(rt, alloc, &images.as_slice()[0], of)?;
    target.run(alloc)?;
    let ended = end(alloc, target)?;
    rest.push(ended.of)?;
    Ok(Record {
        script: Script {
            images,
            clients: Items::from_vec(rest),
            small,
            large,
        },
        scheduler: options.scheduler,
        reactors: options.reactors,
        period: options.period,
        threads: ended.threads,
        devices: ended.devices,
        span: None,
        rounds: Items::new(alloc),
        home: Home { small, large },
    })
}

// The last client, and those before it.
fn take_last(clients: Items<ClientOf>) -> (Vec<ClientOf>, ClientOf)
    requires { 0 < length clients }
    ensures { clients ≡ result.0.items ++ result.1 ∷ [] }
{
    let mut rest = clients.into_vec();
    match rest.pop() {
        Some(last) => (rest, last),
        None => unreachable!(),
    }
}

// The threads before their first turn.
fn begin<R: Wait>(rt: &R, alloc: Global, size: &ImageOf, of: ClientOf) -> Result<Target, NoMemory>
    requires limit { size.now.blocks * size.now.block ≤ 16777216 }
    requires block { 0 < size.now.block }
    requires short { length of.ops ≤ 100000 }
    requires serves { list_all (is_servable 1) of.ops ≡ true }
    requires fits { OpsFit (stated_extent size.now) of.ops }
    ensures running { IfOk result IsRunning }
    ensures of { IfOk result (λ t. t.client.of ≡ of) }
    ensures device { IfOk result (λ t. vec_len t.app.owed ≡ 1) }
    ensures order { IfOk result (λ t. (s : Script) → s.images ≡ size.now ∷ [] → s.clients ≡ of ∷ [] → IsInOrder s t) }
{
    let image = Image::zero(alloc, size.blocks, size.block)?;
    Ok(Target {
        app: App::new(alloc, 1, 1)?,
        client: Client::new(alloc, CLIENT, OWNER, 1, of)?,
        owner: Owner::new(image, Buffers::new(rt, alloc)?),
        devices: vec![in alloc; Device::new(); 1]?,
        posts: Posts::new(alloc)?,
        acts: Acts::new(alloc),
    })
}

// What the threads leave: the client of the script, and their parts of the record.
#[derive(Drop)]
struct Ended {
    of: ClientOf,
    threads: Items<ThreadRecord>,
    devices: Items<DeviceEnd>,
}

fn end(alloc: Global, target: Target) -> Result<Ended, NoMemory>
    requires owed { vec_len target.app.owed ≡ 1 }
    requires devices { vec_len target.devices ≡ 1 }
    ensures of { IfOk result (λ e. e.of ≡ target.client.of) }
    ensures threads { IfOk result (λ e. AreThreads e.threads) }
    ensures devices { IfOk result (λ e. length e.devices ≡ 1) }
    ensures whole { IfOk result (λ e. (s : Script) → IsInOrder s target → IsAtRest target → 1 ≤ target.client.of.depth
        → Leaves s e.threads e.devices) }
{
    let devices = Items::from_vec(vec![in alloc; target.devices[0].end()]?);
    let (did, called) = target.app.into_logs();
    let (of, client_did, replies) = target.client.into_logs();
    let none = Items::new(alloc);
    let app = thread_record(
        alloc,
        RoleKind::App,
        target.posts.app.into_ran(),
        did,
        called,
        none,
    );
    let none = Items::new(alloc);
    let client = thread_record(
        alloc,
        RoleKind::Client,
        target.posts.client.into_ran(),
        client_did,
        none,
        replies,
    );
    let owner = owner_record(alloc, target.posts.owner.into_ran());
    let threads = Items::from_vec(vec![in alloc; app, client, owner]?);
    Ok(Ended {
        of,
        threads,
        devices,
    })
}

// An owner lists nothing but the messages that it ran.
fn owner_record(alloc: Global, ran: Items<Tag>) -> ThreadRecord
    ensures { result ≡ record {
      role = RoleKind.Owner;
      home = 0;
      hops = [];
      ran = ran;
      did = [];
      called = [];
      replies = [];
      seen = [];
    } }
{
    thread_record(
        alloc,
        RoleKind::Owner,
        ran,
        Items::new(alloc),
        Items::new(alloc),
        Items::new(alloc),
    )
}

// The record of a thread that stayed on reactor 0, and for which no completion came.
fn thread_record(
    alloc: Global,
    role: RoleKind,
    ran: Items<Tag>,
    did: Items<Did>,
    called: Items<Called>,
    replies: Items<Reply>,
) -> ThreadRecord
    ensures { result ≡ record {
      role = role;
      home = 0;
      hops = [];
      ran = ran;
      did = did;
      called = called;
      replies = replies;
      seen = [];
    } }
{
    ThreadRecord {
        role,
        home: 0,
        hops: Items::new(alloc),
        ran,
        did,
        called,
        replies,
        seen: Items::new(alloc),
    }
}
