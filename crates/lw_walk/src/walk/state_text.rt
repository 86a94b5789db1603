//! The lines that tell the last state of a walk.
ghost use Rattle.std.specs.Prelude.{◌≡◌, ◌<◌, ◌++◌, string_bytes, OnOk};
ghost use Rattle.lw_world.specs.Sums.{at, texts_below};
ghost use Rattle.lw_world.specs.World.{sleeps, stage_of, standing_of};
ghost use Rattle.lw_walk.specs.Walk.{device_line, owners, pair_line, pairs_of, reactor_line, state_text, thread_line};

use lw_world::{Stage, Standing, World};
use std::alloc::AllocError;

fn push_thread(out: &mut String, thread: u32, standing: Standing) -> Result<(), AllocError>
    ensures { OnOk result (string_bytes out.new ≡ string_bytes out.old ++ thread_line thread standing) }
{
    match standing {
        Standing::List { reactor } => writeln!(out, "thread {} list {}", thread, reactor),
        Standing::Event { reactor } => writeln!(out, "thread {} event {}", thread, reactor),
        Standing::Ended => writeln!(out, "thread {} ended", thread),
    }
}

fn push_threads(out: &mut String, world: &World) -> Result<(), AllocError>
    ensures { OnOk result (string_bytes out.new ≡ string_bytes out.old
        ++ texts_below world.now.threads (λ t. thread_line t (standing_of world.now t))) }
{
    for thread in 0..world.threads() {
        push_thread(out, thread, world.standing(thread))?;
    }
    Ok(())
}

fn push_pair(
    out: &mut String,
    sender: u32,
    receiver: u32,
    sent: u64,
    run: u64,
) -> Result<(), AllocError>
    ensures { OnOk result (string_bytes out.new ≡ string_bytes out.old ++ pair_line sender receiver sent run) }
{
    if sent > 0 {
        writeln!(out, "pair {} {} {} {}", sender, receiver, sent, run)
    } else {
        Ok(())
    }
}

fn push_pair_of(
    out: &mut String,
    world: &World,
    sender: u32,
    receiver: u32,
) -> Result<(), AllocError>
    requires sender { sender < world.now.threads }
    requires receiver { receiver < world.now.threads }
    ensures { OnOk result (string_bytes out.new ≡ string_bytes out.old
        ++ pair_line sender receiver (at world.now.sent sender receiver) (at world.now.run sender receiver)) }
{
    let sent = world.sent(sender, receiver);
    let run = world.run(sender, receiver);
    push_pair(out, sender, receiver, sent, run)
}

fn push_pairs_of(out: &mut String, world: &World, sender: u32) -> Result<(), AllocError>
    requires { sender < world.now.threads }
    ensures { OnOk result (string_bytes out.new ≡ string_bytes out.old ++ pairs_of world.now sender) }
{
    for receiver in 0..world.threads() {
        push_pair_of(out, world, sender, receiver)?;
    }
    Ok(())
}

fn push_pairs(out: &mut String, world: &World) -> Result<(), AllocError>
    ensures { OnOk result (string_bytes out.new ≡ string_bytes out.old ++ texts_below world.now.threads (pairs_of world.now)) }
{
    for sender in 0..world.threads() {
        push_pairs_of(out, world, sender)?;
    }
    Ok(())
}

fn push_device(out: &mut String, device: u32, stage: Stage, owners: u64) -> Result<(), AllocError>
    ensures { OnOk result (string_bytes out.new ≡ string_bytes out.old ++ device_line device stage owners) }
{
    match stage {
        Stage::Open => writeln!(out, "device {} open {}", device, owners),
        Stage::Shut { .. } => writeln!(out, "device {} shut {}", device, owners),
        Stage::Fired => writeln!(out, "device {} fired {}", device, owners),
    }
}

fn push_device_of(out: &mut String, world: &World, device: u32) -> Result<(), AllocError>
    requires { device < world.now.devices }
    ensures { OnOk result (string_bytes out.new ≡ string_bytes out.old
        ++ device_line device (stage_of world.now device) (owners world.now device)) }
{
    push_device(out, device, world.stage(device), world.owners(device))
}

fn push_devices(out: &mut String, world: &World) -> Result<(), AllocError>
    ensures { OnOk result (string_bytes out.new ≡ string_bytes out.old
        ++ texts_below world.now.devices (λ d. device_line d (stage_of world.now d) (owners world.now d))) }
{
    for device in 0..world.devices() {
        push_device_of(out, world, device)?;
    }
    Ok(())
}

fn push_reactor(out: &mut String, reactor: u32, asleep: bool) -> Result<(), AllocError>
    ensures { OnOk result (string_bytes out.new ≡ string_bytes out.old ++ reactor_line reactor asleep) }
{
    if asleep {
        writeln!(out, "reactor {} asleep", reactor)
    } else {
        writeln!(out, "reactor {} awake", reactor)
    }
}

fn push_reactors(out: &mut String, world: &World) -> Result<(), AllocError>
    ensures { OnOk result (string_bytes out.new ≡ string_bytes out.old
        ++ texts_below world.now.reactors (λ c. reactor_line c (sleeps world.now c))) }
{
    for reactor in 0..world.reactors() {
        push_reactor(out, reactor, world.sleeps(reactor))?;
    }
    Ok(())
}

/// The lines of all threads, pairs, devices and reactors.
pub fn push_state(out: &mut String, world: &World) -> Result<(), AllocError>
    ensures { OnOk result (string_bytes out.new ≡ string_bytes out.old ++ state_text world.now) }
{
    push_threads(out, world)?;
    push_pairs(out, world)?;
    push_devices(out, world)?;
    push_reactors(out, world)
}
