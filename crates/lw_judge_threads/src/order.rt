//! What a thread did, in own order.
ghost use Rattle.std.specs.Prelude.{◌≡◌, ◌++◌, map, IfOk, OnOk};
ghost use Rattle.std.specs.List.{enumerate_from};
ghost use Rattle.lw_model.specs.declared.step.Step.TheVariants as step;
ghost use Rattle.lw_model.specs.OwnOrder.{own_order, at_of, in_order};

use lw_base::{NoMemory, Tag};
use lw_model::{Called, Did, Step, ThreadRecord};
use std::alloc::Global;

/// What a thread did, in own order: by how many messages it had run, and of one number the `did` lines before the
/// `called` lines before the message that it ran then.
pub fn own_order(alloc: Global, of: &ThreadRecord) -> Result<Vec<Step>, NoMemory>
    ensures { IfOk result (λ steps. steps.items ≡ own_order of.now) }
{
    let lines = of.ran.len().saturating_add(of.did.len());
    let mut steps = Vec::with_capacity(alloc, lines.saturating_add(of.called.len()))?;
    push_dids(&mut steps, of.did.as_slice())?;
    push_calleds(&mut steps, of.called.as_slice())?;
    push_rans(&mut steps, of.ran.as_slice())?;
    put_in_order(&mut steps)?;
    Ok(steps)
}

// A stable sort by how many messages had been run.
fn put_in_order(steps: &mut Vec<Step>) -> Result<(), NoMemory>
    ensures { OnOk result (steps.new.items ≡ in_order steps.old.items) }
{
    steps.sort_by_key(|step| at_of(step))
}

// How many messages the thread had run when it did this.
fn at_of(step: &Step) -> u64
    ensures { result ≡ at_of step.now }
{
    match step {
        Step::Did { line, .. } => line.at,
        Step::Called { line, .. } => line.at,
        Step::Ran { place, .. } => *place,
    }
}

fn push_dids(steps: &mut Vec<Step>, dids: &[Did]) -> Result<(), NoMemory>
    ensures { OnOk result (steps.new.items ≡ steps.old.items
        ++ map (λ p. step.Did p.0 p.1) (enumerate_from 0 dids.now)) }
{
    for (place, line) in dids.iter().enumerate() {
        steps.push(Step::Did {
            place: place as u64,
            line: *line,
        })?;
    }
    Ok(())
}

fn push_calleds(steps: &mut Vec<Step>, calleds: &[Called]) -> Result<(), NoMemory>
    ensures { OnOk result (steps.new.items ≡ steps.old.items
        ++ map (λ p. step.Called p.0 p.1) (enumerate_from 0 calleds.now)) }
{
    for (place, line) in calleds.iter().enumerate() {
        steps.push(Step::Called {
            place: place as u64,
            line: *line,
        })?;
    }
    Ok(())
}

fn push_rans(steps: &mut Vec<Step>, rans: &[Tag]) -> Result<(), NoMemory>
    ensures { OnOk result (steps.new.items ≡ steps.old.items
        ++ map (λ p. step.Ran p.0 p.1) (enumerate_from 0 rans.now)) }
{
    for (place, tag) in rans.iter().enumerate() {
        steps.push(Step::Ran {
            place: place as u64,
            tag: *tag,
        })?;
    }
    Ok(())
}
