//! The lines of a walk: the sizes of its world, and its events.
ghost use Rattle.std.specs.Prelude.{◌≡◌};
ghost use Rattle.lw_walk.specs.WalkForm.{are_sizes, device_event_in, event_in, reactor_event_in, pair_in, single_in, sizes_in};

use crate::walk::Sizes;
use crate::walk::parts::{after, is_end, spaced};
use lw_world::WorldEvent;

fn single(line: &[u8]) -> Option<u32>
    ensures { result ≡ single_in line.now }
{
    let (value, rest) = spaced(line)?;
    if is_end(rest) { Some(value) } else { None }
}

fn pair(line: &[u8]) -> Option<(u32, u32)>
    ensures { result ≡ pair_in line.now }
{
    let (first, rest) = spaced(line)?;
    let (second, rest) = spaced(rest)?;
    if is_end(rest) {
        Some((first, second))
    } else {
        None
    }
}

// An event of a reactor.
fn reactor_event(line: &[u8]) -> Option<WorldEvent>
    ensures { result ≡ reactor_event_in line.now }
{
    if let Some(rest) = after(line, "sleep") {
        let reactor = single(rest)?;
        Some(WorldEvent::Sleep { reactor })
    } else if let Some(rest) = after(line, "wake") {
        let reactor = single(rest)?;
        Some(WorldEvent::Wake { reactor })
    } else {
        None
    }
}

// An event of a device, or of a reactor.
fn device_event(line: &[u8]) -> Option<WorldEvent>
    ensures { result ≡ device_event_in line.now }
{
    if let Some(rest) = after(line, "give") {
        let (thread, device) = pair(rest)?;
        Some(WorldEvent::Give { thread, device })
    } else if let Some(rest) = after(line, "destroy") {
        let (thread, device) = pair(rest)?;
        Some(WorldEvent::Destroy { thread, device })
    } else if let Some(rest) = after(line, "shut") {
        let (thread, device) = pair(rest)?;
        Some(WorldEvent::Shut { thread, device })
    } else if let Some(rest) = after(line, "fire") {
        let (thread, device) = pair(rest)?;
        Some(WorldEvent::Fire { thread, device })
    } else if let Some(rest) = after(line, "visit") {
        let (thread, device) = pair(rest)?;
        Some(WorldEvent::BeginVisit { thread, device })
    } else if let Some(rest) = after(line, "unvisit") {
        let (thread, device) = pair(rest)?;
        Some(WorldEvent::EndVisit { thread, device })
    } else {
        reactor_event(line)
    }
}

/// The event that a line is.
pub fn event(line: &[u8]) -> Option<WorldEvent>
    ensures { result ≡ event_in line.now }
{
    if let Some(rest) = after(line, "send") {
        let (sender, receiver) = pair(rest)?;
        Some(WorldEvent::Send { sender, receiver })
    } else if let Some(rest) = after(line, "run") {
        let (receiver, sender) = pair(rest)?;
        Some(WorldEvent::Run { receiver, sender })
    } else if let Some(rest) = after(line, "leave") {
        let (thread, reactor) = pair(rest)?;
        Some(WorldEvent::LeaveFor { thread, reactor })
    } else if let Some(rest) = after(line, "arrive") {
        let thread = single(rest)?;
        Some(WorldEvent::Arrive { thread })
    } else if let Some(rest) = after(line, "end") {
        let thread = single(rest)?;
        Some(WorldEvent::End { thread })
    } else {
        device_event(line)
    }
}

// Whether a world may have these sizes.
fn are_sizes(sizes: Sizes) -> bool
    ensures is { result ≡ are_sizes sizes }
{
    let threads = sizes.threads >= 1 && sizes.threads <= 81;
    let reactors = sizes.reactors >= 1 && sizes.reactors <= 16;
    threads && reactors && sizes.devices <= 16
}

/// The sizes that a line tells.
pub fn sizes(line: &[u8]) -> Option<Sizes>
    ensures { result ≡ sizes_in line.now }
{
    let rest = after(line, "world")?;
    let (threads, rest) = spaced(rest)?;
    let (reactors, rest) = spaced(rest)?;
    let (devices, rest) = spaced(rest)?;
    let sizes = Sizes {
        threads,
        reactors,
        devices,
    };
    if is_end(rest) && are_sizes(sizes) {
        Some(sizes)
    } else {
        None
    }
}
