//! What clap reads of the words behind a command's name: options with their values.
ghost use Rattle.std.specs.Prelude.{◌≡◌, ◌<◌, ◌↔◌, map, drop, length, true, false, string_bytes, IfOk, IsTrue};
ghost use Rattle.std.specs.List.{list_all};
ghost use Rattle.clap.specs.Words.{app_of, kind_of, rule_of};
ghost use Rattle.clap.specs.declared.error.kind.ErrorKind.TheVariants.{OutOfMemory};
ghost use Rattle.lw_program.specs.Parsed.{are_unmarked, asked, is_unmarked, run_app, IsRefusalOf, Parses};

use clap::error::ErrorKind;
use clap::{Arg, ArgAction, ArgMatches, Command, Error};
use lw_base::NoMemory;
use std::alloc::{AllocError, Global};

/// Whether no word is `--`, behind which clap takes every word as it stands.
pub fn are_unmarked(words: &[String]) -> bool
    ensures { result ≡ are_unmarked (map string_bytes words.now) }
{
    each_is_unmarked(words)
}

fn each_is_unmarked(words: &[String]) -> bool
    ensures { result ≡ list_all (λ word. is_unmarked (string_bytes word)) words.now }
{
    words.iter().all(is_unmarked)
}

fn is_unmarked(word: &String) -> bool
    ensures { result ≡ is_unmarked (string_bytes word.now) }
{
    word.as_str() != "--"
}

/// What clap finds in the words, the first of which stands for the program's name; none where the others aren't options
/// with values. How often an option comes, and what its values say, is left to the caller.
pub fn parsed<'a>(alloc: Global, words: &'a [String]) -> Result<Option<ArgMatches<'a>>, NoMemory>
    requires named { 0 < length words.now }
    requires unmarked { are_unmarked (drop 1 (map string_bytes words.now)) ≡ true }
    ensures { IfOk result (Parses (map string_bytes words.now)) }
{
    let command = asked(alloc)?;
    match command.try_get_matches_from(words) {
        Ok(matches) => Ok(Some(matches)),
        Err(error) => refusal_of(&error),
    }
}

// That nothing was found, since clap refused the words. Its want of memory is no refusal of them.
fn refusal_of<'a>(error: &Error) -> Result<Option<ArgMatches<'a>>, NoMemory>
    ensures { IsRefusalOf error.now result }
{
    if is_lack(error) {
        Err(AllocError)
    } else {
        Ok(None)
    }
}

// Whether there was no memory.
fn is_lack(error: &Error) -> bool
    ensures { IsTrue result ↔ (kind_of error.now ≡ OutOfMemory) }
{
    matches!(error.kind(), ErrorKind::OutOfMemory)
}

// The options, as clap is asked for them.
fn asked<'a>(alloc: Global) -> Result<Command<'a>, NoMemory>
    ensures { IfOk result (λ c. app_of c ≡ run_app) }
{
    let command = Command::new(alloc, "run")
        .disable_help_flag(true)
        .disable_version_flag(true)
        .arg(option(alloc, "scheduler"))?
        .arg(option(alloc, "reactors"))?
        .arg(option(alloc, "beside"))?
        .arg(option(alloc, "period"))?;
    Ok(command)
}

// An option with a value, as often as it comes.
fn option<'a>(alloc: Global, name: &'a str) -> Arg<'a>
    ensures rule { rule_of result ≡ asked name.now }
    ensures local { result.global ≡ false }
{
    Arg::new(alloc, name).long(name).action(ArgAction::Append)
}
