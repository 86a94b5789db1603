//! A report read from its front to its end.
ghost use Rattle.std.specs.Prelude.{◌≡◌, ◌+◌, ◌<◌, ◌≤◌, ◌^◌, IfOk, length, is_none};
ghost use Rattle.lw_model.specs.ScriptRules.{rule_broken};
ghost use Rattle.lw_report.specs.Machine.{Says};
ghost use Rattle.lw_report.specs.Report.{head_at, report_at, rest_at, script_at, threads_at, devices_at};

use crate::contents::{Contents, Head};
use crate::lines::{Lines, Stop, numbered};
use crate::rounds::moves;
use crate::sections::{ClientPart, DevicePart, ImagePart, ThreadPart, list};
use lw_base::NoMemory;
use lw_model::{DeviceEnd, Home, Items, Script, ThreadRecord};
use lw_report_lines::{FixedLine, NumberLine, PairLine, ReactorsLine, SchedulerLine};
use lw_script_rules::rule_broken;
use std::alloc::Global;

// The script's lines. One that breaks a rule makes the line behind them bad.
#[tactic(auto, unfolding(crate::specs::Report::script_at))]
fn script(alloc: Global, lines: &mut Lines<'_>) -> Result<Script, Stop>
    ensures script { Says result lines.new (script_at lines.old) }
    ensures accepted { IfOk result (λ s. rule_broken s ≡ None) }
{
    let pool = lines.one(alloc, &PairLine::Pool)?;
    let images = list(alloc, lines, NumberLine::Images, &ImagePart)?;
    let clients = list(alloc, lines, NumberLine::Clients, &ClientPart)?;
    let script = Script {
        images: Items::from_vec(images),
        clients: Items::from_vec(clients),
        small: pool.small,
        large: pool.large,
    };
    match rule_broken(alloc, &script)? {
        None => Ok(script),
        Some(_) => Err(Stop::BadLine),
    }
}

#[tactic(auto, unfolding(crate::specs::Report::threads_at))]
fn threads(
    alloc: Global,
    lines: &mut Lines<'_>,
    script: &Script,
) -> Result<Items<ThreadRecord>, Stop>
    requires clients { length script.now.clients < 2 ^ 32 }
    requires images { length script.now.images < 2 ^ 32 }
    ensures { Says result lines.new (threads_at script.now lines.old) }
{
    let clients = script.clients.len() as u64;
    let images = script.images.len() as u64;
    let part = ThreadPart { clients, images };
    let threads = numbered(alloc, lines, &part, 1 + clients + images)?;
    Ok(Items::from_vec(threads))
}

#[tactic(auto, unfolding(crate::specs::Report::devices_at))]
fn devices(alloc: Global, lines: &mut Lines<'_>, script: &Script) -> Result<Items<DeviceEnd>, Stop>
    ensures { Says result lines.new (devices_at script.now lines.old) }
{
    let devices = numbered(alloc, lines, &DevicePart, script.images.len() as u64)?;
    Ok(Items::from_vec(devices))
}

// What stands behind the script's lines, up to the end of the text.
fn rest(alloc: Global, lines: &mut Lines<'_>, head: Head, script: Script) -> Result<Contents, Stop>
    requires accepted { rule_broken script ≡ None }
    ensures { Says result lines.new (rest_at head script lines.old) }
{
    let threads = threads(alloc, lines, &script)?;
    let devices = devices(alloc, lines, &script)?;
    let moves = moves(alloc, lines, head.scheduler)?;
    let home = lines.one(alloc, &PairLine::Left)?;
    lines.one(alloc, &FixedLine::End)?;
    if lines.is_empty() {
        Ok(Contents {
            script,
            scheduler: head.scheduler,
            reactors: head.reactors,
            period: head.period,
            threads,
            devices,
            span: moves.span,
            rounds: moves.rounds,
            home,
        })
    } else {
        Err(Stop::BadLine)
    }
}

// The lines before the script's.
#[tactic(auto, unfolding(crate::specs::Report::head_at))]
fn head(alloc: Global, lines: &mut Lines<'_>) -> Result<Head, Stop>
    ensures { Says result lines.new (head_at lines.old) }
{
    lines.one(alloc, &FixedLine::Title)?;
    let scheduler = lines.one(alloc, &SchedulerLine)?;
    let reactors = lines.one(alloc, &ReactorsLine)?;
    let period = lines.one(alloc, &NumberLine::Period)?;
    Ok(Head {
        scheduler,
        reactors,
        period,
    })
}

/// What a text says as a report; else the first line that is left is the first bad one.
pub fn report(alloc: Global, lines: &mut Lines<'_>) -> Result<Contents, Stop>
    ensures { Says result lines.new (report_at lines.old) }
{
    let head = head(alloc, lines)?;
    let script = script(alloc, lines)?;
    rest(alloc, lines, head, script)
}
