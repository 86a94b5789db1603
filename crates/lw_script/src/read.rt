//! The reading of a script, from its bytes to the script or its refusal.
ghost use Rattle.std.specs.Prelude.{◌≡◌, ◌≢◌, IfOk, IfErr, OnOk, Some, None, true};
ghost use Rattle.serde_json.specs.View.{view};
ghost use Rattle.lw_model.specs.ScriptRules.{has_image_count, rule_broken};
ghost use Rattle.lw_model.specs.ScriptShape.{script_in, value_refusal};
ghost use Rattle.lw_model.specs.ScriptText.{refusal_of, script_of};
ghost use Rattle.lw_script_rules.specs.Served.{is_served, run_refusal};
ghost use Rattle.lw_model.specs.declared.refusal.ScriptRefusal.TheVariants.{NoMemory};

use crate::build::script_in;
use crate::shape::shape_broken;
use crate::value::{value_of, values_under};
use lw_model::{Script, ScriptRefusal};
use lw_script_rules::{is_served, is_within, rule_broken};
use serde_json::Value;
use std::alloc::Global;

/// A script's text has at most so many bytes.
const MAX_BYTES: usize = 16_777_216;

/// Reads a script from the bytes of its text.
///
/// The refusal is that of the first rule, in the order of the table of the script's format, that the bytes break; each
/// rule is tested over the whole script before the next. `NotBuilt` where they break none and the run does not serve the
/// script's form yet. `NoMemory` can come at any point, and says nothing of the bytes.
pub fn read_script(alloc: Global, bytes: &[u8]) -> Result<Script, ScriptRefusal>
    ensures script { IfOk result (λ s. script_of bytes.now ≡ Some s) }
    ensures accepted { OnOk result (run_refusal bytes.now ≡ None) }
    ensures served { IfOk result (λ s. is_served s ≡ true) }
    ensures refused { IfErr result (λ e. e ≢ NoMemory → run_refusal bytes.now ≡ Some e) }
{
    let script = read_any(alloc, bytes)?;
    if is_served(&script) {
        Ok(script)
    } else {
        Err(ScriptRefusal::NotBuilt)
    }
}

// Reads a script of any form.
fn read_any(alloc: Global, bytes: &[u8]) -> Result<Script, ScriptRefusal>
    ensures script { IfOk result (λ s. script_of bytes.now ≡ Some s) }
    ensures refused { IfErr result (λ e. e ≢ NoMemory → refusal_of bytes.now ≡ Some e) }
{
    if bytes.len() > MAX_BYTES {
        return Err(ScriptRefusal::TooLong);
    }
    let value = value_of(alloc, bytes)?;
    read_value(alloc, &value)
}

fn read_value(alloc: Global, value: &Value) -> Result<Script, ScriptRefusal>
    ensures accepted { OnOk result (value_refusal (view value.now) ≡ None) }
    ensures script { IfOk result (λ s. s ≡ script_in (view value.now)) }
    ensures refused { IfErr result (λ e. e ≢ NoMemory → value_refusal (view value.now) ≡ Some e) }
{
    match shape_broken(value) {
        Some(refusal) => Err(refusal),
        None => {
            // Before any op's image is looked up.
            if has_image_count(value) {
                read_parts(alloc, value)
            } else {
                Err(ScriptRefusal::Limit { rule: 1 })
            }
        }
    }
}

fn has_image_count(value: &Value) -> bool
    ensures { result ≡ has_image_count (script_in (view value.now)) }
{
    is_within(1, 16, values_under(value, "images").len() as u64)
}

fn read_parts(alloc: Global, value: &Value) -> Result<Script, ScriptRefusal>
    requires { has_image_count (script_in (view value.now)) ≡ true }
    ensures accepted { OnOk result (rule_broken (script_in (view value.now)) ≡ None) }
    ensures script { IfOk result (λ s. s ≡ script_in (view value.now)) }
    ensures refused { IfErr result (λ e. e ≢ NoMemory → rule_broken (script_in (view value.now)) ≡ Some e) }
{
    let script = match script_in(alloc, value) {
        Ok(script) => script,
        Err(_) => return Err(ScriptRefusal::NoMemory),
    };
    match rule_broken(alloc, &script) {
        Ok(None) => Ok(script),
        Ok(Some(refusal)) => Err(refusal),
        Err(_) => Err(ScriptRefusal::NoMemory),
    }
}
