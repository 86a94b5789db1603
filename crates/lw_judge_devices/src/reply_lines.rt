//! Whether each client lists the replies that it ran, in order, with the answers that it is owed.
ghost use Rattle.std.specs.Prelude.{◌≡◌, ◌+◌, ◌<◌, ◌^◌, Some, IfOk, length, option_map, filter_map};
ghost use Rattle.lw_model.specs.Lawful.{reply_op};
ghost use Rattle.lw_model.specs.Same.{both, is_same_replied, is_same_reply};
ghost use Rattle.lw_model.specs.Verdict.{least_failing, replies};
ghost use Rattle.lw_judge_threads.specs.Firsts.{first_unlike};
ghost use Rattle.lw_judge_threads.specs.LinesOf.{AreThreadLines};
ghost use Rattle.lw_judge_devices.specs.Owed.{IsOwed};
ghost use Rattle.lw_judge_devices.specs.OwedLines.{first_line, replies_in, reply_to};

use crate::journal::answer_journal;
use crate::table::Owed;
use lw_base::{NoMemory, Tag, What};
use lw_judge_threads::{ThreadLines, at_line, lesser};
use lw_model::{Record, Replied, Reply, ThreadRecord};
use std::alloc::Global;

/// The first line at which the rule of replies fails.
pub fn replies(alloc: Global, of: &Record, layout: &[ThreadLines]) -> Result<Option<u64>, NoMemory>
    requires { AreThreadLines of.now layout.now }
    ensures { IfOk result (λ line. line ≡ least_failing (replies of.now)) }
{
    let owed = owed(alloc, of)?;
    let threads = of.threads.as_slice();
    let mut least = None;
    for client in 0..of.script.clients.len() {
        let thread = client + 1;
        let line = client_line(&owed, thread, &threads[thread], &layout[thread]);
        least = lesser(least, line);
    }
    Ok(least)
}

/// What each client is owed for its requests, by the journals of all images.
pub fn owed(alloc: Global, of: &Record) -> Result<Owed, NoMemory>
    ensures { IfOk result (IsOwed of.now) }
{
    let mut owed = Owed::nothing(alloc, &of.script)?;
    for device in 0..of.script.images.len() {
        answer_journal(alloc, &mut owed, of, device)?;
    }
    Ok(owed)
}

// The first line at which the rule fails for a client: its `thread` line where a reply lacks.
fn client_line(
    owed: &Owed,
    client: usize,
    thread: &ThreadRecord,
    lines: &ThreadLines,
) -> Option<u64>
    requires { lines.now.replies + length thread.now.replies < 2 ^ 64 }
    ensures { result ≡ first_line thread.now lines.now (replies_in owed.now client thread.now.ran) }
{
    let ran = thread.ran.as_slice();
    let listed = thread.replies.as_slice();
    if listed.len() < count_replies(ran) {
        return Some(lines.thread);
    }
    at_line(lines.replies, first_unowed(owed, client, ran, listed))
}

// How many of these messages are replies.
fn count_replies(ran: &[Tag]) -> usize
    ensures { result ≡ length (filter_map reply_op ran.now) }
{
    let mut count = 0;
    for tag in ran {
        if let What::Reply { .. } = tag.what {
            count += 1;
        }
    }
    count
}

// The place of the first reply that isn't the one that is owed for what the client ran.
fn first_unowed(owed: &Owed, client: usize, ran: &[Tag], listed: &[Reply]) -> Option<usize>
    ensures { result ≡ first_unlike is_same_reply 0 (replies_in owed.now client ran.now) listed.now }
{
    let mut place = 0;
    for tag in ran {
        if let What::Reply { op } = tag.what {
            let reply = listed.get(place)?;
            if !is_owed(owed.reply(client, op), op, reply) {
                return Some(place);
            }
            place += 1;
        }
    }
    (place < listed.len()).then_some(place)
}

// Whether a reply has what is owed for an op.
fn is_owed(owed: Option<&Replied>, op: u32, reply: &Reply) -> bool
    ensures { result ≡ both is_same_reply (reply_to op (option_map (λ a. a.now) owed.entry)) (Some reply.now) }
{
    match owed {
        Some(answer) => op == reply.op && is_same(answer, &reply.answer),
        None => false,
    }
}

// Whether two answers are the same.
fn is_same(one: &Replied, other: &Replied) -> bool
    ensures { result ≡ is_same_replied one.now other.now }
{
    match (one, other) {
        (Replied::Ok, Replied::Ok) => true,
        (Replied::Bytes(one), Replied::Bytes(other)) => one.as_slice() == other.as_slice(),
        (Replied::Writes(one), Replied::Writes(other)) => one == other,
        _ => false,
    }
}
