//! A script made of its value.
ghost use Rattle.std.specs.Prelude.{◌≡◌, ◌<◌, ◌^◌, [], length, map, ◌++◌, IfOk, OnOk, option_map, unwrap_or, true, filter_map};
ghost use Rattle.std.specs.List.{cons_option};
ghost use Rattle.serde_json.specs.View.{view};
ghost use Rattle.lw_model.specs.ScriptRules.{has_image_count};
ghost use Rattle.lw_model.specs.ScriptShape.{client_in, clients_in, op_in, ops_in, pattern_of, pool_number, script_in};
ghost use Rattle.lw_script.specs.Fitted.{fitted_client, fitted_script};
ghost use Rattle.lw_script.specs.Form.{op_by};

use crate::form::{OpForm, op_form};
use crate::images::{Images, fitted};
use crate::value::{text_under, values_under, whole_under};
use hex::FromHexError;
use lw_base::NoMemory;
use lw_model::{ClientOf, Items, Op, Script, Text};
use serde_json::Value;
use std::alloc::{AllocError, Global};

/// The script that a value of the right shape is, its numbers of 32 bits fitted.
pub fn script_in(alloc: Global, value: &Value) -> Result<Script, NoMemory>
    requires { has_image_count (script_in (view value.now)) ≡ true }
    ensures { IfOk result (λ s. s ≡ fitted_script (script_in (view value.now))) }
{
    let images = Images::read(alloc, value)?;
    let clients = read_clients(alloc, &images, value)?;
    Ok(Script {
        images: Items::from_vec(images.into_list()),
        clients: Items::from_vec(clients),
        small: fitted(pool_number(value, "small")),
        large: fitted(pool_number(value, "large")),
    })
}

fn pool_number(value: &Value, key: &str) -> u64
    ensures { result ≡ unwrap_or (pool_number key.now (view value.now)) 0 }
{
    match value.get("pool") {
        Some(pool) => whole_under(pool, key).unwrap_or(0),
        None => 0,
    }
}

fn read_clients(alloc: Global, images: &Images, script: &Value) -> Result<Vec<ClientOf>, NoMemory>
    ensures { IfOk result (λ r. r.items
        ≡ map fitted_client (map (client_in (map (λ i. i.name) images.now.list.items)) (clients_in (view script.now)))) }
{
    let values = values_under(script, "clients");
    let mut list = Vec::with_capacity(alloc, values.len())?;
    for value in values {
        list.push(read_client(alloc, images, value)?)?;
    }
    Ok(list)
}

fn read_client(alloc: Global, images: &Images, value: &Value) -> Result<ClientOf, NoMemory>
    ensures { IfOk result (λ c. c
        ≡ fitted_client (client_in (map (λ i. i.name) images.now.list.items) (view value.now))) }
{
    let name = text_under(value, "name").unwrap_or("");
    let depth = whole_under(value, "depth").unwrap_or(0);
    let ops = read_ops(alloc, images, value)?;
    Ok(ClientOf {
        name: Text::from_string(String::from_str(alloc, name)?),
        depth: fitted(depth),
        ops: Items::from_vec(ops),
    })
}

fn read_ops(alloc: Global, images: &Images, client: &Value) -> Result<Vec<Op>, NoMemory>
    ensures { IfOk result (λ r. r.items
        ≡ filter_map (op_in (map (λ i. i.name) images.now.list.items)) (ops_in (view client.now))) }
{
    let values = values_under(client, "ops");
    let mut ops = Vec::with_capacity(alloc, values.len())?;
    for value in values {
        push_op(alloc, images, value, &mut ops)?;
    }
    Ok(ops)
}

// Appends the op that a value has the form of.
fn push_op(alloc: Global, images: &Images, value: &Value, ops: &mut Vec<Op>) -> Result<(), NoMemory>
    ensures { OnOk result (ops.new.items ≡ ops.old.items
        ++ cons_option (op_in (map (λ i. i.name) images.now.list.items) (view value.now)) []) }
{
    match op_form(value) {
        Some(form) => ops.push(read_op(alloc, images, &form)?)?,
        None => {}
    }
    Ok(())
}

fn read_op(alloc: Global, images: &Images, form: &OpForm<'_>) -> Result<Op, NoMemory>
    ensures { IfOk result (λ o. o ≡ op_by (map (λ i. i.name) images.now.list.items) form.now) }
{
    Ok(match *form {
        OpForm::Get { name } => Op::Get {
            image: images.place_of(name),
        },
        OpForm::Put { name } => Op::Put {
            image: images.place_of(name),
        },
        OpForm::Write {
            name,
            start,
            count,
            digits,
        } => Op::Write {
            image: images.place_of(name),
            start,
            count,
            pattern: Items::from_vec(pattern_of(alloc, digits)?),
        },
        OpForm::Read { name, start, count } => Op::Read {
            image: images.place_of(name),
            start,
            count,
        },
        OpForm::Flush { name } => Op::Flush {
            image: images.place_of(name),
        },
        OpForm::Wait { ticks } => Op::Wait { ticks },
        OpForm::Visit { name } => Op::Visit {
            image: images.place_of(name),
        },
        OpForm::Each => Op::Each,
        OpForm::Unregister { name } => Op::Unregister {
            image: images.place_of(name),
        },
    })
}

// The bytes of hexadecimal digits, and none of any other text.
fn pattern_of(alloc: Global, digits: &str) -> Result<Vec<u8>, NoMemory>
    ensures { IfOk result (λ p. p.items ≡ pattern_of digits.now) }
{
    match hex::decode(alloc, digits) {
        Ok(bytes) => Ok(bytes),
        Err(FromHexError::OutOfMemory) => Err(AllocError),
        Err(_) => Ok(Vec::new(alloc)),
    }
}
