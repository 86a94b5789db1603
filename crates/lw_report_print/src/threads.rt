//! The lines of the threads and the devices, each with its number.
ghost use Rattle.std.specs.Prelude.{◌≡◌, ◌++◌, ◌∷◌, [], string_bytes, flat_map, OnOk};
ghost use Rattle.std.specs.List.{AllByRecursion, enumerate_from};
ghost use Rattle.lw_model.specs.Ranges.{DeviceFits, Fits32, ThreadFits};
ghost use Rattle.lw_model.specs.ReportText.{device_line, role_word, thread_line, thread_lines, text_of_lines};

use crate::printed::push_all;
use lw_model::{DeviceEnd, RoleKind, ThreadRecord};
use std::alloc::{AllocError, Global};

fn role_text(role: RoleKind) -> &'static str
    ensures { result.now ≡ role_word role }
{
    match role {
        RoleKind::App => "app",
        RoleKind::Client => "client",
        RoleKind::Owner => "owner",
    }
}

fn push_thread_line(
    out: &mut String,
    number: usize,
    thread: &ThreadRecord,
) -> Result<(), AllocError>
    ensures bytes { OnOk result (string_bytes out.new
        ≡ string_bytes out.old ++ (thread_line number thread.now ++ 10 ∷ [])) }
    ensures range { OnOk result (Fits32 thread.now.home) }
{
    let (role, home) = (role_text(thread.role), thread.home);
    writeln!(out, "thread {} {} {}", number, role, home)
}

fn push_thread(
    alloc: Global,
    out: &mut String,
    number: usize,
    thread: &ThreadRecord,
) -> Result<(), AllocError>
    ensures bytes { OnOk result (string_bytes out.new
        ≡ string_bytes out.old ++ text_of_lines (thread_lines number thread.now)) }
    ensures range { OnOk result (ThreadFits thread.now) }
{
    push_thread_line(out, number, thread)?;
    push_all(alloc, out, thread.hops.as_slice())?;
    push_all(alloc, out, thread.ran.as_slice())?;
    push_all(alloc, out, thread.did.as_slice())?;
    push_all(alloc, out, thread.called.as_slice())?;
    push_all(alloc, out, thread.replies.as_slice())?;
    push_all(alloc, out, thread.seen.as_slice())
}

pub fn push_threads(
    alloc: Global,
    out: &mut String,
    threads: &[ThreadRecord],
) -> Result<(), AllocError>
    ensures bytes { OnOk result (string_bytes out.new ≡ string_bytes out.old
        ++ flat_map (λ p. text_of_lines (thread_lines p.0 p.1)) (enumerate_from 0 threads.now)) }
    ensures range { OnOk result (AllByRecursion ThreadFits threads.now) }
{
    for (number, thread) in threads.iter().enumerate() {
        push_thread(alloc, out, number, thread)?;
    }
    Ok(())
}

fn push_device(out: &mut String, number: usize, device: &DeviceEnd) -> Result<(), AllocError>
    ensures bytes { OnOk result (string_bytes out.new
        ≡ string_bytes out.old ++ (device_line number device.now ++ 10 ∷ [])) }
    ensures range { OnOk result (DeviceFits device.now) }
{
    let DeviceEnd {
        given,
        thread,
        callbacks,
    } = *device;
    writeln!(out, "device {} {} {} {}", number, given, thread, callbacks)
}

pub fn push_devices(out: &mut String, devices: &[DeviceEnd]) -> Result<(), AllocError>
    ensures bytes { OnOk result (string_bytes out.new ≡ string_bytes out.old
        ++ flat_map (λ p. device_line p.0 p.1 ++ 10 ∷ []) (enumerate_from 0 devices.now)) }
    ensures range { OnOk result (AllByRecursion DeviceFits devices.now) }
{
    for (number, device) in devices.iter().enumerate() {
        push_device(out, number, device)?;
    }
    Ok(())
}
