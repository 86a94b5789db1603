//! The rules over a whole script, each tested over all of it before the next.
ghost use Rattle.std.specs.Prelude.{◌≡◌, IfOk, option_map, true};
ghost use Rattle.lw_model.specs.ScriptRules.{first_bad_pattern, first_out_of_range, has_client_count, has_op_count, rule_broken};
ghost use Rattle.lw_model.specs.declared.refusal.ScriptRefusal.TheVariants.{Pattern, Range};
ghost use Rattle.lw_script_rules.specs.Rules.{limit_broken};

use crate::limits;
use crate::names::has_names;
use crate::pattern::first_bad_pattern;
use crate::range::first_out_of_range;
use lw_base::NoMemory;
use lw_model::{Script, ScriptRefusal};
use std::alloc::Global;

/// The first rule that a script breaks, from its limits on.
pub fn rule_broken(alloc: Global, script: &Script) -> Result<Option<ScriptRefusal>, NoMemory>
    ensures { IfOk result (λ r. r ≡ rule_broken script.now) }
{
    let limit = limit_broken(script);
    if limit.is_some() {
        return Ok(limit);
    }
    if !has_names(alloc, script)? {
        return Ok(Some(ScriptRefusal::Name));
    }
    let range = range_broken(script);
    if range.is_some() {
        return Ok(range);
    }
    Ok(pattern_broken(script))
}

fn limit_broken(script: &Script) -> Option<ScriptRefusal>
    ensures { result ≡ limit_broken script.now }
{
    if !limits::has_image_count(script) {
        return Some(ScriptRefusal::Limit { rule: 1 });
    }
    if !limits::has_block_sizes(script) {
        return Some(ScriptRefusal::Limit { rule: 2 });
    }
    if !limits::has_image_sizes(script) {
        return Some(ScriptRefusal::Limit { rule: 3 });
    }
    if !limits::has_client_count(script) {
        return Some(ScriptRefusal::Limit { rule: 4 });
    }
    if !limits::has_depths(script) {
        return Some(ScriptRefusal::Limit { rule: 5 });
    }
    if !limits::has_op_count(script) {
        return Some(ScriptRefusal::Limit { rule: 6 });
    }
    if !limits::has_pool_counts(script) {
        return Some(ScriptRefusal::Limit { rule: 7 });
    }
    if !limits::has_round_count(script) {
        return Some(ScriptRefusal::Limit { rule: 8 });
    }
    if !limits::has_wait_times(script) {
        return Some(ScriptRefusal::Limit { rule: 9 });
    }
    None
}

fn range_broken(script: &Script) -> Option<ScriptRefusal>
    requires clients { has_client_count script.now ≡ true }
    requires ops { has_op_count script.now ≡ true }
    ensures { result ≡ option_map (λ p. Range p.client p.place) (first_out_of_range script.now) }
{
    match first_out_of_range(script) {
        Some((client, op)) => Some(ScriptRefusal::Range {
            client: client as u32,
            op: op as u32,
        }),
        None => None,
    }
}

fn pattern_broken(script: &Script) -> Option<ScriptRefusal>
    requires clients { has_client_count script.now ≡ true }
    requires ops { has_op_count script.now ≡ true }
    ensures { result ≡ option_map (λ p. Pattern p.client p.place) (first_bad_pattern script.now) }
{
    match first_bad_pattern(script) {
        Some((client, op)) => Some(ScriptRefusal::Pattern {
            client: client as u32,
            op: op as u32,
        }),
        None => None,
    }
}
