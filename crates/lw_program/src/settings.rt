//! What the options say, by the values that clap found for them.
ghost use Rattle.std.specs.Prelude.{◌≡◌, ◌≤◌, true, length, map, IfSome};
ghost use Rattle.lw_model.specs.ScriptRules.{is_within};
ghost use Rattle.lw_base.specs.declared.moves.Scheduler.TheVariants.{Static};
ghost use Rattle.std.specs.List.{list_all};
ghost use Rattle.clap.specs.Lexer.{is_digit};
ghost use Rattle.lw_program.specs.Words.{options_of, is_numeral, number_in, scheduler_in, setting};
ghost use Rattle.lw_program.specs.Parsed.{values_in};
ghost use Rattle.std.specs.Prelude.{codes};

use clap::ArgMatches;
use lw_model::Scheduler;
use lw_target::Options;

/// The options, where each comes at most once with a value in its range.
pub fn options_of(matches: &ArgMatches<'_>) -> Option<Options>
    ensures options { result ≡ options_of (values_in matches.now) }
    ensures period { IfSome result (λ o. is_within 1 1000000000000 o.period ≡ true) }
{
    let scheduler = scheduler_of(matches)?;
    let reactors = number(matches, "reactors", 1, 16, 1)?;
    let beside = number(matches, "beside", 0, reactors - 1, 0)?;
    let period = number(matches, "period", 1, 1_000_000_000_000, 1_000_000)?;
    Some(Options {
        scheduler,
        reactors: reactors as u32,
        beside: beside as u32,
        period,
    })
}

fn scheduler_of(matches: &ArgMatches<'_>) -> Option<Scheduler>
    ensures { result ≡ setting scheduler_in Static (values_in matches.now (codes "scheduler")) }
{
    match matches.get_raw("scheduler") {
        Some(values) => scheduler_by(values),
        None => Some(Scheduler::Static),
    }
}

fn scheduler_by(values: &[&str]) -> Option<Scheduler>
    ensures { result ≡ setting scheduler_in Static (map (λ text. text.now) values.now) }
{
    match values {
        [] => Some(Scheduler::Static),
        [text] => scheduler_in(*text),
        _ => None,
    }
}

// A number in a range, or the default.
fn number(matches: &ArgMatches<'_>, name: &str, least: u64, most: u64, default: u64) -> Option<u64>
    requires { (least ≤ default) × (default ≤ most) }
    ensures value { result ≡ setting (number_in least most) default (values_in matches.now name.now) }
    ensures within { IfSome result (λ n. (least ≤ n) × (n ≤ most)) }
{
    match matches.get_raw(name) {
        Some(values) => number_by(values, least, most, default),
        None => Some(default),
    }
}

fn number_by(values: &[&str], least: u64, most: u64, default: u64) -> Option<u64>
    requires { (least ≤ default) × (default ≤ most) }
    ensures value { result ≡ setting (number_in least most) default (map (λ text. text.now) values.now) }
    ensures within { IfSome result (λ n. (least ≤ n) × (n ≤ most)) }
{
    match values {
        [] => Some(default),
        [text] => number_in(*text, least, most),
        _ => None,
    }
}

fn scheduler_in(text: &str) -> Option<Scheduler>
    ensures { result ≡ scheduler_in text.now }
{
    if text == "static" {
        Some(Scheduler::Static)
    } else if text == "dynamic" {
        Some(Scheduler::Dynamic)
    } else {
        None
    }
}

// The number of a range that digits write.
fn number_in(text: &str, least: u64, most: u64) -> Option<u64>
    ensures value { result ≡ number_in least most text.now }
    ensures within { IfSome result (λ n. (least ≤ n) × (n ≤ most)) }
{
    let number = number_of(text)?;
    if least <= number && number <= most {
        Some(number)
    } else {
        None
    }
}

// The number that digits write. More than a u64 has is in no range.
fn number_of(text: &str) -> Option<u64>
    ensures { result ≡ number_in 0 18446744073709551615 text.now }
{
    if is_numeral(text) {
        text.parse::<u64>().ok()
    } else {
        None
    }
}

fn is_numeral(text: &str) -> bool
    ensures { result ≡ is_numeral text.now }
{
    is_short(text) && are_digits(text.as_bytes())
}

fn is_short(text: &str) -> bool
    ensures { result ≡ is_within 1 20 (length text.now) }
{
    1 <= text.len() && text.len() <= 20
}

fn are_digits(bytes: &[u8]) -> bool
    ensures { result ≡ list_all is_digit bytes.now }
{
    bytes.iter().all(is_digit)
}

fn is_digit(byte: &u8) -> bool
    ensures { result ≡ is_digit byte.now }
{
    byte.is_ascii_digit()
}
