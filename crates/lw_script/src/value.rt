//! A JSON value and what stands under its keys.
ghost use Rattle.std.specs.Prelude.{◌≡◌, ◌≢◌, Some, None, IfOk, IfErr, codes, map, option_map, is_some, unwrap_or, []};
ghost use Rattle.std.specs.List.{list_all};
ghost use Rattle.serde_json.specs.View.{view};
ghost use Rattle.serde_json.specs.Find.{get, as_array, as_object};
ghost use Rattle.lw_model.specs.ScriptShape.{whole_at, text_at, list_at, list_of, has_keys, member_count};
ghost use Rattle.lw_model.specs.ScriptText.{value_of};
ghost use Rattle.lw_model.specs.declared.refusal.ScriptRefusal.TheVariants.{NotJson, NoMemory};

use lw_model::ScriptRefusal;
use serde_json::Value;
use std::alloc::Global;

/// The value that the bytes are, as JSON in UTF-8.
///
/// `NotJson` where `serde_json` refuses them, and `NoMemory` where memory ran out.
pub fn value_of(alloc: Global, bytes: &[u8]) -> Result<Value, ScriptRefusal>
    ensures ok { IfOk result (λ v. value_of bytes.now ≡ Some (view v)) }
    ensures refused { result ≡ Err NotJson → value_of bytes.now ≡ None }
    ensures err { IfErr result (λ e. e ≢ NoMemory → e ≡ NotJson) }
{
    match Value::from_slice(alloc, bytes) {
        Ok(value) => Ok(value),
        Err(error) => {
            if error.is_memory() {
                Err(ScriptRefusal::NoMemory)
            } else {
                Err(ScriptRefusal::NotJson)
            }
        }
    }
}

/// The whole number under a key, where one stands there.
pub fn whole_under(value: &Value, key: &str) -> Option<u64>
    ensures { result ≡ whole_at key.now (view value.now) }
{
    match value.get(key) {
        Some(found) => found.as_u64(),
        None => None,
    }
}

/// The text under a key, where one stands there.
pub fn text_under<'v>(value: &'v Value, key: &str) -> Option<&'v str>
    ensures { option_map (λ t. t.now) result ≡ text_at key.now (view value.now) }
{
    match value.get(key) {
        Some(found) => found.as_str(),
        None => None,
    }
}

/// The values of the array under a key, where one stands there.
pub fn list_under<'v>(value: &'v Value, key: &str) -> Option<&'v [Value]>
    ensures { option_map (λ l. map view l.now) result ≡ list_at key.now (view value.now) }
{
    match value.get(key) {
        Some(found) => list(found),
        None => None,
    }
}

/// The values of the array under a key, and none where no array stands there.
pub fn values_under<'v>(value: &'v Value, key: &str) -> &'v [Value]
    ensures { map view result.now ≡ unwrap_or (list_at key.now (view value.now)) [] }
{
    match list_under(value, key) {
        Some(values) => values,
        None => &[],
    }
}

/// The values of an array, and none of any other value.
pub fn list(value: &Value) -> Option<&[Value]>
    ensures { option_map (λ l. map view l.now) result ≡ option_map list_of (as_array (view value.now)) }
{
    match value.as_array() {
        Some(values) => Some(values.as_slice()),
        None => None,
    }
}

/// Whether the value is an object with exactly these keys.
pub fn has_exactly(value: &Value, keys: &[&str]) -> bool
    ensures { result ≡ has_keys (map (λ k. k.now) keys.now) (view value.now) }
{
    match member_count(value) {
        Some(count) => has_each(value, keys) && count == keys.len(),
        None => false,
    }
}

fn has_each(value: &Value, keys: &[&str]) -> bool
    ensures { result ≡ list_all (λ k. is_some (get k.now (view value.now))) keys.now }
{
    keys.iter().all(|key| has_key(value, *key))
}

fn has_key(value: &Value, key: &str) -> bool
    ensures { result ≡ is_some (get key.now (view value.now)) }
{
    value.get(key).is_some()
}

// How many members an object has, each key once.
fn member_count(value: &Value) -> Option<usize>
    ensures { result ≡ option_map member_count (as_object (view value.now)) }
{
    match value.as_object() {
        Some(members) => Some(members.len()),
        None => None,
    }
}
