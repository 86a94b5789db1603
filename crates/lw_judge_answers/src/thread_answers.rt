//! The tests of a thread's lines by the rule, beside those of its steps.
ghost use Rattle.std.specs.Prelude.{◌≡◌, ◌+◌, ◌<◌, ◌^◌, [], map, reverse, length, nat_le, IfSome};
ghost use Rattle.lw_model.specs.Threads.{did_of};
ghost use Rattle.lw_model.specs.OwnOrder.{own_order_of};
ghost use Rattle.lw_model.specs.Answers.{wanted, at_fits};
ghost use Rattle.lw_model.specs.Verdict.{step_test, least_failing};
ghost use Rattle.lw_judge_threads.specs.Firsts.{first_unfit, at_line};
ghost use Rattle.lw_judge_threads.specs.Folded.{folded};
ghost use Rattle.lw_judge_threads.specs.LinesOf.{StandsAt};
ghost use Rattle.lw_judge_answers.specs.AnsweringAt.{answers_of};

use crate::parts::{calleds_of, dids_of, op_count, ran_count};
use lw_judge_threads::{ThreadLines, lesser};
use lw_model::{Called, Did, Record};

/// The first failing line of a thread by the rule, from its steps' `least`.
pub fn answers_of_thread(
    of: &Record,
    thread: usize,
    lines: &ThreadLines,
    steps: Option<u64>,
) -> Option<u64>
    ensures { StandsAt of.now thread lines.now → steps ≡ least_failing (folded (step_test of.now thread) (reverse (own_order_of of.now thread)))
        → result ≡ least_failing (answers_of of.now thread) }
{
    let lack = (!has_all(of, thread)).then_some(lines.thread);
    let ran = ran_count(of, thread);
    let dids = at_line(lines.did, unfit_did(dids_of(of, thread), ran as u64));
    let calleds = at_line(
        lines.called,
        unfit_called(calleds_of(of, thread), ran as u64),
    );
    lesser(lack, lesser(dids, lesser(calleds, steps)))
}

// Whether a thread has a `did` line for each that is wanted.
fn has_all(of: &Record, thread: usize) -> bool
    ensures { result ≡ nat_le (wanted of.now thread) (length (did_of of.now thread)) }
{
    let dids = dids_of(of, thread).len();
    if thread == 0 {
        of.script.images.len() <= dids
    } else if thread <= of.script.clients.len() {
        op_count(&of.script, thread) < dids
    } else {
        true
    }
}

// The line of a place, where the first is `first`.
fn at_line(first: u64, place: Option<usize>) -> Option<u64>
    ensures { IfSome place (λ p. first + p < 2 ^ 64) → result ≡ at_line first place }
{
    Some(first.saturating_add(place? as u64))
}

// The place of the first `did` line whose AT is below the one before it, or above what the thread ran.
fn unfit_did(dids: &[Did], ran: u64) -> Option<usize>
    ensures { result ≡ first_unfit (at_fits ran) 0 [] (map (λ x. x.at) dids.now) }
{
    let mut before = 0;
    for (place, line) in dids.iter().enumerate() {
        if line.at < before || line.at > ran {
            return Some(place);
        }
        before = line.at;
    }
    None
}

// The same of the callbacks.
fn unfit_called(calleds: &[Called], ran: u64) -> Option<usize>
    ensures { result ≡ first_unfit (at_fits ran) 0 [] (map (λ x. x.at) calleds.now) }
{
    let mut before = 0;
    for (place, line) in calleds.iter().enumerate() {
        if line.at < before || line.at > ran {
            return Some(place);
        }
        before = line.at;
    }
    None
}
