//! The words of the command line.
ghost use Rattle.std.specs.Prelude.{◌≡◌, ◌<◌, true, map, drop, length, string_bytes, IfOk, IfSome, option_and_then};
ghost use Rattle.lw_model.specs.ScriptRules.{is_within};
ghost use Rattle.lw_program.specs.Words.{asked, run_by, run_under, options_of};
ghost use Rattle.lw_program.specs.Parsed.{values_in};
ghost use Rattle.lw_program.specs.Served.{Serves};

use crate::asked::{are_unmarked, parsed};
use crate::settings::options_of;
use clap::ArgMatches;
use lw_base::NoMemory;
use lw_model::Scheduler;
use lw_target::Options;
use std::alloc::Global;

/// What the words ask for.
#[derive(Copy, Clone)]
pub enum CommandLine {
    /// Reads a script, runs it under the options and writes the report.
    Run(Options),
    /// Reads a walk and writes its answer.
    Walk,
    /// Reads a report and says whether it is lawful.
    Check,
}

/// The command that the words are. None of the command table gives none.
pub fn command_line(alloc: Global, words: &[String]) -> Result<Option<CommandLine>, NoMemory>
    ensures command { IfOk result (λ c. c ≡ asked words.now) }
    ensures served { IfOk result (λ c. IfSome c Serves) }
{
    if words.len() > 0 && words[0].as_str() == "run" {
        run_by(alloc, words)
    } else if words.len() == 1 && words[0].as_str() == "walk" {
        Ok(Some(CommandLine::Walk))
    } else if words.len() == 1 && words[0].as_str() == "check" {
        Ok(Some(CommandLine::Check))
    } else {
        Ok(None)
    }
}

// `run`, by the words behind it.
fn run_by(alloc: Global, words: &[String]) -> Result<Option<CommandLine>, NoMemory>
    requires { 0 < length words.now }
    ensures command { IfOk result (λ c. c ≡ run_by (drop 1 (map string_bytes words.now))) }
    ensures served { IfOk result (λ c. IfSome c Serves) }
{
    if !are_unmarked(&words[1..]) {
        return Ok(None);
    }
    match parsed(alloc, words)? {
        Some(matches) => Ok(run_with(&matches)),
        None => Ok(None),
    }
}

// `run`, by what clap found behind it.
fn run_with(matches: &ArgMatches<'_>) -> Option<CommandLine>
    ensures command { result ≡ option_and_then run_under (options_of (values_in matches.now)) }
    ensures served { IfSome result Serves }
{
    run_under(options_of(matches)?)
}

// `run` under these options, where they are served so far.
fn run_under(options: Options) -> Option<CommandLine>
    requires { is_within 1 1000000000000 options.period ≡ true }
    ensures command { result ≡ run_under options }
    ensures served { IfSome result Serves }
{
    match options.scheduler {
        Scheduler::Static => {
            if options.reactors == 1 && options.beside == 0 {
                Some(CommandLine::Run(options))
            } else {
                None
            }
        }
        Scheduler::Dynamic => None,
    }
}
