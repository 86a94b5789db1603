//! The names of images and clients, and the images that ops name.
ghost use Rattle.std.specs.Prelude.{◌≡◌, ◌||◌, ℕ, List, map, not, IfOk, OnOk, bytes_eq};
ghost use Rattle.std.specs.List.{list_all};
ghost use Rattle.std.specs.HashSet.{contains_text};
ghost use Rattle.lw_model.specs.ScriptRules.{all_ops, has_names, is_distinct, is_name, is_name_byte, names_an_image};

use crate::limits::is_within;
use indexmap::IndexSet;
use lw_base::NoMemory;
use lw_model::{ClientOf, ImageOf, Op, Script};
use std::alloc::Global;

/// What has a name of its own in a script.
trait Named {
    ghost use Rattle.std.specs.Prelude.{ℕ, List};

    ghost name_of: { Self → List ℕ };

    fn name(&self) -> &str
        ensures { result.now ≡ name_of self.now };
}

impl Named for ImageOf {
    ghost name_of = { λ i. i.name };

    fn name(&self) -> &str {
        self.name.as_str()
    }
}

impl Named for ClientOf {
    ghost name_of = { λ c. c.name };

    fn name(&self) -> &str {
        self.name.as_str()
    }
}

/// Whether names are well formed, no two images and no two clients have one name, and each op that names an image
/// names one of the script's.
pub fn has_names(alloc: Global, script: &Script) -> Result<bool, NoMemory>
    ensures { IfOk result (λ b. b ≡ has_names script.now) }
{
    let images = script.images.as_slice();
    let clients = script.clients.as_slice();
    Ok(
        are_named(images)
            && are_named(clients)
            && are_distinct(alloc, images)?
            && are_distinct(alloc, clients)?
            && name_images(script),
    )
}

fn are_named<T: Named>(items: &[T]) -> bool
    ensures { result ≡ list_all is_name (map T.Named.name_of items.now) }
{
    each_is_named(items)
}

fn each_is_named<T: Named>(items: &[T]) -> bool
    ensures { result ≡ list_all (λ x. is_name (T.Named.name_of x)) items.now }
{
    items.iter().all(is_named)
}

fn is_named<T: Named>(item: &T) -> bool
    ensures { result ≡ is_name (T.Named.name_of item.now) }
{
    is_name(item.name().as_bytes())
}

/// Whether the bytes are a name: 1 to 32 of `a` to `z`, `0` to `9`, `_` and `-`.
pub fn is_name(name: &[u8]) -> bool
    ensures { result ≡ is_name name.now }
{
    is_within(1, 32, name.len() as u64) && are_name_bytes(name)
}

fn are_name_bytes(name: &[u8]) -> bool
    ensures { result ≡ list_all is_name_byte name.now }
{
    name.iter().all(|b| is_name_byte(*b))
}

fn is_name_byte(b: u8) -> bool
    ensures { result ≡ is_name_byte b }
{
    is_within(97, 122, b as u64) || is_within(48, 57, b as u64) || b == 95 || b == 45
}

fn are_distinct<T: Named>(alloc: Global, items: &[T]) -> Result<bool, NoMemory>
    ensures { IfOk result (λ b. b ≡ is_distinct (map T.Named.name_of items.now)) }
{
    let mut seen = IndexSet::new(alloc);
    let mut distinct = true;
    for item in items {
        let new = add_name(alloc, &mut seen, item.name())?;
        distinct = distinct && new;
    }
    Ok(distinct)
}

// Adds a name to those seen, and answers whether it is new among them.
fn add_name(alloc: Global, seen: &mut IndexSet<String>, name: &str) -> Result<bool, NoMemory>
    ensures new { IfOk result (λ new. new ≡ not (contains_text seen.old name.now)) }
    ensures seen { OnOk result ((q : List ℕ) →
        contains_text seen.new q ≡ (contains_text seen.old q || bytes_eq q name.now)) }
{
    if seen.contains(name) {
        return Ok(false);
    }
    seen.insert(String::from_str(alloc, name)?)?;
    Ok(true)
}

fn name_images(script: &Script) -> bool
    ensures { result ≡ list_all (names_an_image script.now) (all_ops script.now) }
{
    clients_name_images(script, script.clients.as_slice())
}

fn clients_name_images(script: &Script, clients: &[ClientOf]) -> bool
    ensures { result ≡ list_all (λ c. list_all (names_an_image script.now) c.ops) clients.now }
{
    clients
        .iter()
        .all(|client| name_images_in(script, client.ops.as_slice()))
}

fn name_images_in(script: &Script, ops: &[Op]) -> bool
    ensures { result ≡ list_all (names_an_image script.now) ops.now }
{
    ops.iter().all(|op| names_an_image(script, op))
}

fn names_an_image(script: &Script, op: &Op) -> bool
    ensures { result ≡ names_an_image script.now op.now }
{
    match op {
        Op::Get { image }
        | Op::Put { image }
        | Op::Flush { image }
        | Op::Visit { image }
        | Op::Unregister { image } => (*image as usize) < script.images.len(),
        Op::Write { image, .. } | Op::Read { image, .. } => (*image as usize) < script.images.len(),
        Op::Wait { .. } | Op::Each => true,
    }
}
