//! The forms of an op in a script's text.
ghost use Rattle.std.specs.Prelude.{◌≡◌, ℕ, List, option_map, map, [], ◌∷◌};
ghost use Rattle.serde_json.specs.View.{view};
ghost use Rattle.lw_model.specs.ScriptShape.{op_of, op_on, op_in, place_of};
ghost use Rattle.lw_script.specs.Form.{op_by};

use crate::value::list;
use serde_json::Value;

/// An op as its text has it: images by their names, and a pattern by its digits.
#[derive(Copy, Clone)]
pub enum OpForm<'v> {
    Get {
        name: &'v str,
    },
    Put {
        name: &'v str,
    },
    Write {
        name: &'v str,
        start: u64,
        count: u64,
        digits: &'v str,
    },
    Read {
        name: &'v str,
        start: u64,
        count: u64,
    },
    Flush {
        name: &'v str,
    },
    Wait {
        ticks: u64,
    },
    Visit {
        name: &'v str,
    },
    Each,
    Unregister {
        name: &'v str,
    },
}

/// The form that a value has, where it is an array of one of the forms.
pub fn op_form(value: &Value) -> Option<OpForm<'_>>
    ensures { (names : List (List ℕ)) → option_map (op_by names) result ≡ op_in names (view value.now) }
{
    form_of(list(value)?)
}

fn form_of<'v>(parts: &'v [Value]) -> Option<OpForm<'v>>
    ensures { (names : List (List ℕ)) → option_map (op_by names) result ≡ op_of names (map view parts.now) }
{
    match parts {
        [word] => form_of_one(word),
        [word, given] => form_of_two(word, given),
        [word, name, start, count] => form_of_four(word, name, start, count),
        [word, name, start, count, digits] => form_of_five(word, name, start, count, digits),
        _ => None,
    }
}

fn form_of_one<'v>(word: &'v Value) -> Option<OpForm<'v>>
    ensures { (names : List (List ℕ)) → option_map (op_by names) result ≡ op_of names (view word.now ∷ []) }
{
    if word.as_str()? == "each" {
        Some(OpForm::Each)
    } else {
        None
    }
}

fn form_of_two<'v>(word: &'v Value, given: &'v Value) -> Option<OpForm<'v>>
    ensures { (names : List (List ℕ)) → option_map (op_by names) result
        ≡ op_of names (view word.now ∷ view given.now ∷ []) }
{
    let word = word.as_str()?;
    if word == "wait" {
        let ticks = given.as_u64()?;
        Some(OpForm::Wait { ticks })
    } else {
        form_on(word, given.as_str()?)
    }
}

fn form_on<'v>(word: &str, name: &'v str) -> Option<OpForm<'v>>
    ensures { (names : List (List ℕ)) → option_map (op_by names) result
        ≡ op_on word.now (place_of names name.now) }
{
    if word == "get" {
        Some(OpForm::Get { name })
    } else if word == "put" {
        Some(OpForm::Put { name })
    } else if word == "flush" {
        Some(OpForm::Flush { name })
    } else if word == "visit" {
        Some(OpForm::Visit { name })
    } else if word == "unregister" {
        Some(OpForm::Unregister { name })
    } else {
        None
    }
}

fn form_of_four<'v>(
    word: &'v Value,
    name: &'v Value,
    start: &'v Value,
    count: &'v Value,
) -> Option<OpForm<'v>>
    ensures { (names : List (List ℕ)) → option_map (op_by names) result
        ≡ op_of names (view word.now ∷ view name.now ∷ view start.now ∷ view count.now ∷ []) }
{
    let word = word.as_str()?;
    let name = name.as_str()?;
    let start = start.as_u64()?;
    let count = count.as_u64()?;
    if word == "read" {
        Some(OpForm::Read { name, start, count })
    } else {
        None
    }
}

fn form_of_five<'v>(
    word: &'v Value,
    name: &'v Value,
    start: &'v Value,
    count: &'v Value,
    digits: &'v Value,
) -> Option<OpForm<'v>>
    ensures { (names : List (List ℕ)) → option_map (op_by names) result
        ≡ op_of names
        (view word.now ∷ view name.now ∷ view start.now ∷ view count.now ∷ view digits.now ∷ []) }
{
    let word = word.as_str()?;
    let name = name.as_str()?;
    let start = start.as_u64()?;
    let count = count.as_u64()?;
    let digits = digits.as_str()?;
    if word == "write" {
        Some(OpForm::Write {
            name,
            start,
            count,
            digits,
        })
    } else {
        None
    }
}
