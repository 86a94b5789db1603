//! The shape that a script's value must have.
ghost use Rattle.std.specs.Prelude.{◌≡◌, map, [], ◌∷◌, codes, is_some};
ghost use Rattle.serde_json.specs.View.{view};
ghost use Rattle.std.specs.List.{list_all};
ghost use Rattle.lw_model.specs.ScriptShape.{has_the_keys, has_a_version, has_a_pool, is_an_image, has_images, is_a_client, has_clients, has_op_forms, has_version_1, ops_in, images_in, clients_in, op_in};
ghost use Rattle.lw_script.specs.Shape.{shape_broken, has_op_forms_in};

use crate::form::op_form;
use crate::value::{has_exactly, list_under, text_under, whole_under};
use lw_model::ScriptRefusal;
use serde_json::Value;

/// The first rule of shape that the value breaks, its version among them.
pub fn shape_broken(value: &Value) -> Option<ScriptRefusal>
    ensures { result ≡ shape_broken (view value.now) }
{
    if !has_the_keys(value) {
        return Some(ScriptRefusal::Shape { rule: 1 });
    }
    if !has_a_version(value) {
        return Some(ScriptRefusal::Shape { rule: 2 });
    }
    if !has_a_pool(value) {
        return Some(ScriptRefusal::Shape { rule: 3 });
    }
    if !has_images(value) {
        return Some(ScriptRefusal::Shape { rule: 4 });
    }
    if !has_clients(value) {
        return Some(ScriptRefusal::Shape { rule: 5 });
    }
    if !has_op_forms(value) {
        return Some(ScriptRefusal::Shape { rule: 6 });
    }
    if !has_version_1(value) {
        return Some(ScriptRefusal::Version);
    }
    None
}

fn has_the_keys(value: &Value) -> bool
    ensures { result ≡ has_the_keys (view value.now) }
{
    has_exactly(value, &["version", "images", "clients", "pool"])
}

fn has_a_version(value: &Value) -> bool
    ensures { result ≡ has_a_version (view value.now) }
{
    whole_under(value, "version").is_some()
}

fn has_version_1(value: &Value) -> bool
    ensures { result ≡ has_version_1 (view value.now) }
{
    whole_under(value, "version").unwrap_or(0) == 1
}

fn has_a_pool(value: &Value) -> bool
    ensures { result ≡ has_a_pool (view value.now) }
{
    match value.get("pool") {
        Some(pool) => {
            has_exactly(pool, &["small", "large"])
                && whole_under(pool, "small").is_some()
                && whole_under(pool, "large").is_some()
        }
        None => false,
    }
}

fn has_images(value: &Value) -> bool
    ensures { result ≡ has_images (view value.now) }
{
    match list_under(value, "images") {
        Some(images) => are_images(images),
        None => false,
    }
}

fn are_images(values: &[Value]) -> bool
    ensures { result ≡ list_all (λ v. is_an_image (view v)) values.now }
{
    values.iter().all(is_an_image)
}

fn is_an_image(value: &Value) -> bool
    ensures { result ≡ is_an_image (view value.now) }
{
    has_exactly(value, &["name", "block", "blocks"])
        && text_under(value, "name").is_some()
        && whole_under(value, "block").is_some()
        && whole_under(value, "blocks").is_some()
}

fn has_clients(value: &Value) -> bool
    ensures { result ≡ has_clients (view value.now) }
{
    match list_under(value, "clients") {
        Some(clients) => are_clients(clients),
        None => false,
    }
}

fn are_clients(values: &[Value]) -> bool
    ensures { result ≡ list_all (λ v. is_a_client (view v)) values.now }
{
    values.iter().all(is_a_client)
}

fn is_a_client(value: &Value) -> bool
    ensures { result ≡ is_a_client (view value.now) }
{
    has_exactly(value, &["name", "depth", "ops"])
        && text_under(value, "name").is_some()
        && whole_under(value, "depth").is_some()
        && list_under(value, "ops").is_some()
}

fn has_op_forms(value: &Value) -> bool
    ensures { result ≡ has_op_forms (view value.now) }
{
    match list_under(value, "clients") {
        Some(clients) => have_op_forms(clients),
        None => true,
    }
}

fn have_op_forms(clients: &[Value]) -> bool
    ensures { result ≡ list_all (λ v. has_op_forms_in (view v)) clients.now }
{
    clients.iter().all(has_op_forms_in)
}

fn has_op_forms_in(client: &Value) -> bool
    ensures { result ≡ has_op_forms_in (view client.now) }
{
    match list_under(client, "ops") {
        Some(ops) => are_ops(ops),
        None => true,
    }
}

fn are_ops(values: &[Value]) -> bool
    ensures { result ≡ list_all (λ v. is_some (op_in [] (view v))) values.now }
{
    values.iter().all(is_an_op)
}

fn is_an_op(value: &Value) -> bool
    ensures { result ≡ is_some (op_in [] (view value.now)) }
{
    op_form(value).is_some()
}
