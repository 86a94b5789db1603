//! Whether each thread ran what was sent to it, and each token its way.
ghost use Rattle.std.specs.Prelude.{◌≡◌, ◌+◌, ◌<◌, ◌^◌, ◌==◌, ◌∷◌, [], ℕ, Bool, cond, List, not, length, IfOk, OnOk, slice_index};
ghost use Rattle.std.specs.List.{list_all};
ghost use Rattle.lw_base.specs.declared.message.Tag.{Tag};
ghost use Rattle.lw_model.specs.Threads.{thread_count};
ghost use Rattle.lw_model.specs.Sent.{must_run};
ghost use Rattle.lw_model.specs.Lawful.{is_first_run};
ghost use Rattle.lw_model.specs.Verdict.{ran_is_sent, least_failing};
ghost use Rattle.lw_judge_messages.specs.declared.tokens.Token.{Token};
ghost use Rattle.lw_judge_threads.specs.Firsts.{first_unfit};
ghost use Rattle.lw_judge_threads.specs.LinesOf.{AreThreadLines};
ghost use Rattle.lw_judge_messages.specs.Tokens.{what_of, AreRunners};
ghost use Rattle.lw_judge_messages.specs.SendsAt.{AreSendsAt};
ghost use Rattle.lw_judge_messages.specs.RanSent.{is_listed, ran_fits, count_from, runs_enough, runs_tokens, HasTokens};

use crate::sends::Sends;
use crate::tokens::{Runners, Token};
use lw_base::{NoMemory, Tag};
use lw_judge_threads::{ThreadLines, at_line, lesser};
use lw_model::{Record, Script};
use std::alloc::Global;
use std::collections::HashSet;

/// The first line at which a thread ran what wasn't sent to it, or a token twice. A thread that lacks a message, or a
/// token that it must run, fails at its own line.
pub fn ran_is_sent(
    alloc: Global,
    of: &Record,
    layout: &[ThreadLines],
    runners: &Runners,
    sends: &Sends,
) -> Result<Option<u64>, NoMemory>
    requires { AreThreadLines of.now layout.now }
    ensures { AreRunners of.now runners.now → AreSendsAt of.now (thread_count of.now.script) [] sends.now
        → IfOk result (λ line. line ≡ least_failing (ran_is_sent of.now)) }
{
    let tokens = distinct(alloc, sends.tokens())?;
    let threads = of.threads.len();
    let mut first = None;
    for (thread, entry) in of.threads.as_slice().iter().enumerate() {
        let ran = entry.ran.as_slice();
        let lines = layout[thread];
        let lacks = lacks_message(alloc, sends, threads, thread, ran)?
            || lacks_token(of, runners, thread, tokens.as_slice());
        let unfit = at_line(lines.ran, first_unfit(alloc, sends, thread, ran)?);
        first = lesser(first, lesser(lacks.then_some(lines.thread), unfit));
    }
    Ok(first)
}

// Whether a thread ran fewer messages of some thread than that one sent to it.
fn lacks_message(
    alloc: Global,
    sends: &Sends,
    threads: usize,
    thread: usize,
    ran: &[Tag],
) -> Result<bool, NoMemory>
    ensures { IfOk result (λ lacks. lacks ≡ not (runs_enough sends.now threads thread ran.now)) }
{
    let counts = counts_by_sender(alloc, threads, ran)?;
    for (sender, count) in counts.as_slice().iter().enumerate() {
        if *count < sends.list(sender, thread).len() {
            return Ok(true);
        }
    }
    Ok(false)
}

// How many messages are of each thread.
fn counts_by_sender(alloc: Global, threads: usize, ran: &[Tag]) -> Result<Vec<usize>, NoMemory>
    ensures { IfOk result (λ counts. (length counts.items ≡ threads)
        × ((s : ℕ) → s < threads → slice_index counts.items s ≡ count_from ran.now s)) }
{
    let mut counts = vec![in alloc; 0usize; threads]?;
    for tag in ran {
        count_one(&mut counts, tag.sender as usize);
    }
    Ok(counts)
}

// One message more of a sender. One that is no thread isn't counted.
fn count_one(counts: &mut Vec<usize>, sender: usize)
    requires { slice_index counts.old.items sender + 1 < 2 ^ 64 }
    ensures count { length counts.new.items ≡ length counts.old.items }
    ensures each { (s : ℕ) → s < length counts.old.items
        → slice_index counts.new.items s ≡ slice_index counts.old.items s + cond (sender == s) 1 0 }
{
    if let Some(count) = counts.get_mut(sender) {
        *count += 1;
    }
}

// Whether a thread lacks a token that it must run.
fn lacks_token(of: &Record, runners: &Runners, thread: usize, tokens: &[Token]) -> bool
    ensures { AreRunners of.now runners.now → thread < thread_count of.now.script
        → result ≡ not (runs_tokens of.now thread tokens.now) }
{
    for token in tokens {
        if must_run(&of.script, token, thread) && !runners.has(token, thread) {
            return true;
        }
    }
    false
}

// Whether a thread runs a token wherever it stands: the app, an owner, the token's origin.
fn must_run(script: &Script, token: &Token, thread: usize) -> bool
    ensures { result ≡ must_run script.now (what_of token.now) thread }
{
    let origin = match *token {
        Token::Visit { origin, .. } => origin,
        Token::Cast { origin, .. } => origin,
    };
    thread == 0 || thread > script.clients.len() || thread == origin as usize
}

// The tokens, each once. Many lines may tell of one token, but a script has few visits and casts.
fn distinct(alloc: Global, tokens: &[Token]) -> Result<Vec<Token>, NoMemory>
    ensures { IfOk result (λ once. (p : Token → Bool) → list_all p once.items ≡ list_all p tokens.now) }
{
    let mut known = HashSet::new(alloc);
    let mut once = Vec::new(alloc);
    for token in tokens {
        if known.insert(*token)? {
            once.push(*token)?;
        }
    }
    Ok(once)
}

// The place of the first message of a thread that wasn't sent to it, or is a token that it ran before.
fn first_unfit(
    alloc: Global,
    sends: &Sends,
    thread: usize,
    ran: &[Tag],
) -> Result<Option<usize>, NoMemory>
    ensures { IfOk result (λ place. place ≡ first_unfit (ran_fits sends.now thread) 0 [] ran.now) }
{
    let mut tokens = HashSet::new(alloc);
    for (place, tag) in ran.iter().enumerate() {
        let first = is_first(&mut tokens, tag)?;
        if !(first && is_listed(sends, thread, tag)) {
            return Ok(Some(place));
        }
    }
    Ok(None)
}

// Whether a message is no token that was run before. Keeps the token.
fn is_first(tokens: &mut HashSet<Token>, tag: &Tag) -> Result<bool, NoMemory>
    ensures first { (past : List Tag) → HasTokens past tokens.old → IfOk result (λ first. first ≡ is_first_run past tag.now) }
    ensures more { (past : List Tag) → HasTokens past tokens.old → OnOk result (HasTokens (tag.now ∷ past) tokens.new) }
{
    match Token::of(&tag.what) {
        Some(token) => Ok(tokens.insert(token)?),
        None => Ok(true),
    }
}

// Whether a message is the one of its number in its sender's list.
fn is_listed(sends: &Sends, thread: usize, tag: &Tag) -> bool
    ensures { result ≡ is_listed sends.now thread tag.now }
{
    match sends
        .list(tag.sender as usize, thread)
        .get(tag.number as usize)
    {
        Some(what) => *what == tag.what,
        None => false,
    }
}
