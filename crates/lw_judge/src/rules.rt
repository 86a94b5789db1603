//! The nine rules, one after another.
ghost use Rattle.std.specs.Prelude.{◌≡◌, ◌↔◌, [], IfOk, drop};
ghost use Rattle.lw_model.specs.Lawful as lawful;
ghost use Rattle.lw_model.specs.Threads.{thread_count};
ghost use Rattle.lw_model.specs.Verdict.{first_failing, rules, verdict};
ghost use Rattle.lw_judge.specs.declared.answer.Verdict.TheVariants as answer;
ghost use Rattle.lw_judge_threads.specs.LinesOf.{IsLayout};
ghost use Rattle.lw_judge_messages.specs.Tokens.{AreRunners};
ghost use Rattle.lw_judge.specs.Verdicts.{verdict_as};
ghost use Rattle.lw_judge.specs.Walked.{IsWalkedTo};

use crate::answer::Verdict;
use crate::homes::buffers_home;
use crate::numbers::numbers;
use crate::walk::Walk;
use lw_base::NoMemory;
use lw_judge_devices::replies;
use lw_judge_messages::{Runners, ran_is_sent, visits_seen};
use lw_judge_rounds::{homes_and_hops, rounds_and_orders};
use lw_judge_threads::Layout;
use lw_model::Record;
use std::alloc::Global;

/// Judges a record: `Lawful`, or the first rule that fails and the first line at which it does.
///
/// Each line is looked at a bounded number of times, whatever the record says. Want of memory is the one answer that
/// may always come.
pub fn judge(alloc: Global, of: &Record) -> Result<Verdict, NoMemory>
    ensures verdict { IfOk result (λ v. v ≡ verdict_as (verdict of.now)) }
    ensures lawful { IfOk result (λ v. (v ≡ answer.Lawful) ↔ lawful.Lawful of.now) }
{
    let layout = Layout::of(alloc, of)?;
    judge_laid_out(alloc, of, &layout)
}

// Judges all rules. What each of these calls is given is its caller's, so that nothing has to be given back where memory is
// lacking.
fn judge_laid_out(alloc: Global, of: &Record, layout: &Layout) -> Result<Verdict, NoMemory>
    requires layout { IsLayout of.now layout.now }
    ensures verdict { IfOk result (λ v. v ≡ verdict_as (verdict of.now)) }
    ensures lawful { IfOk result (λ v. (v ≡ answer.Lawful) ↔ lawful.Lawful of.now) }
{
    if let Some(line) = homes_and_hops(alloc, of, layout.threads.as_slice())? {
        return Ok(Verdict::Unlawful { clause: 1, line });
    }
    if let Some(line) = numbers(alloc, of, layout.threads.as_slice())? {
        return Ok(Verdict::Unlawful { clause: 2, line });
    }
    judge_own_orders(alloc, of, layout)
}

// Judges the rules from the third on.
fn judge_own_orders(alloc: Global, of: &Record, layout: &Layout) -> Result<Verdict, NoMemory>
    requires layout { IsLayout of.now layout.now }
    ensures { IfOk result (λ v. v ≡ verdict_as (first_failing 3 (drop 2 rules) of.now)) }
{
    let runners = Runners::new(alloc, of)?;
    let walk = Walk::of(alloc, of, layout.threads.as_slice(), &runners)?;
    judge_walked(alloc, of, layout, &runners, &walk)
}

// Judges them by what the own orders told.
fn judge_walked(
    alloc: Global,
    of: &Record,
    layout: &Layout,
    runners: &Runners,
    walk: &Walk,
) -> Result<Verdict, NoMemory>
    requires layout { IsLayout of.now layout.now }
    requires runners { AreRunners of.now runners.now }
    requires walked { IsWalkedTo of.now (thread_count of.now.script) [] walk.now }
    ensures { IfOk result (λ v. v ≡ verdict_as (first_failing 3 (drop 2 rules) of.now)) }
{
    let lines = layout.threads.as_slice();
    if let Some(line) = walk.answers {
        return Ok(Verdict::Unlawful { clause: 3, line });
    }
    if let Some(line) = ran_is_sent(alloc, of, lines, runners, &walk.sends)? {
        return Ok(Verdict::Unlawful { clause: 4, line });
    }
    if let Some(line) = replies(alloc, of, lines)? {
        return Ok(Verdict::Unlawful { clause: 5, line });
    }
    judge_ends(alloc, of, layout, runners, walk)
}

// Judges the rules from the sixth on.
fn judge_ends(
    alloc: Global,
    of: &Record,
    layout: &Layout,
    runners: &Runners,
    walk: &Walk,
) -> Result<Verdict, NoMemory>
    requires layout { IsLayout of.now layout.now }
    requires runners { AreRunners of.now runners.now }
    requires walked { IsWalkedTo of.now (thread_count of.now.script) [] walk.now }
    ensures { IfOk result (λ v. v ≡ verdict_as (first_failing 6 (drop 5 rules) of.now)) }
{
    if let Some(line) = walk.devices.rule(alloc, of, layout.devices)? {
        return Ok(Verdict::Unlawful { clause: 6, line });
    }
    let lines = layout.threads.as_slice();
    if let Some(line) = visits_seen(of, lines, runners, &walk.marks) {
        return Ok(Verdict::Unlawful { clause: 7, line });
    }
    judge_rounds(alloc, of, layout)
}

// Judges the last two rules.
fn judge_rounds(alloc: Global, of: &Record, layout: &Layout) -> Result<Verdict, NoMemory>
    requires { IsLayout of.now layout.now }
    ensures { IfOk result (λ v. v ≡ verdict_as (first_failing 8 (drop 7 rules) of.now)) }
{
    if let Some(line) = rounds_and_orders(alloc, of, layout.clock)? {
        return Ok(Verdict::Unlawful { clause: 8, line });
    }
    match buffers_home(of, layout.home) {
        Some(line) => Ok(Verdict::Unlawful { clause: 9, line }),
        None => Ok(Verdict::Lawful),
    }
}
