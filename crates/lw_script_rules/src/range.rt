//! The first op whose range is refused.
ghost use Rattle.std.specs.Prelude.{◌≡◌, ◌+◌, ◌<◌, ◌≤◌, ◌++◌, length, sum_by, option_map, Some, None, OnOk, IfOk, IfErr, IfSome, if◌then◌else◌};
ghost use Rattle.lw_model.specs.ScriptRules.{all_ops, block_at, blocks_at, first_out_of_range, is_in_image, is_in_range, is_in_range_after, read_bytes};
ghost use Rattle.lw_script_rules.specs.First.{place_in, ops_before};

use lw_model::{Op, Script};

/// The client and the place among its ops of the first op, in script order, whose range is refused.
pub fn first_out_of_range(script: &Script) -> Option<(usize, usize)>
    ensures first { result ≡ option_map (λ p. (p.client, p.place)) (first_out_of_range script.now) }
    ensures within { IfSome result (λ p.
        (p.0 < length script.now.clients) × (p.1 < length (all_ops script.now))) }
{
    let clients = script.clients.as_slice();
    let mut read = 0;
    for (client, of) in clients.iter().enumerate() {
        match range_in(script, client, of.ops.as_slice(), read) {
            Ok(after) => read = after,
            Err(place) => return Some((client, place)),
        }
    }
    None
}

// What the reads come to behind these ops, or the place of the first op that is out of range.
fn range_in(script: &Script, client: usize, ops: &[Op], read: u64) -> Result<u64, usize>
    requires small { read ≤ 16777216 }
    requires so_far { read ≡ sum_by (read_bytes script.now) (ops_before script.now.clients client) }
    ensures found { IfErr result (λ j.
        place_in (is_in_range script.now) (ops_before script.now.clients client) 0 ops.now ≡ Some j) }
    ensures within { IfErr result (λ j. j < length ops.now) }
    ensures none { OnOk result
        (place_in (is_in_range script.now) (ops_before script.now.clients client) 0 ops.now ≡ None) }
    ensures sum { IfOk result (λ n.
        n ≡ sum_by (read_bytes script.now) (ops_before script.now.clients client ++ ops.now)) }
    ensures limit { IfOk result (λ n. n ≤ 16777216) }
{
    let mut read = read;
    for (place, op) in ops.iter().enumerate() {
        match read_after(script, op, read) {
            Some(after) => read = after,
            None => return Err(place),
        }
    }
    Ok(read)
}

// What the reads come to with this op, where it is in range behind `read` bytes.
fn read_after(script: &Script, op: &Op, read: u64) -> Option<u64>
    requires { read ≤ 16777216 }
    ensures { result ≡ (if is_in_range_after script.now read op.now
        then Some (read + read_bytes script.now op.now) else None) }
{
    match op {
        Op::Write {
            image,
            start,
            count,
            ..
        } => {
            if is_in_image(script, *image, *start, *count) {
                Some(read)
            } else {
                None
            }
        }
        Op::Read {
            image,
            start,
            count,
        } => {
            let (image, start, count) = (*image, *start, *count);
            if is_in_image(script, image, start, count) {
                let after = read as u128 + count as u128 * block_at(script, image) as u128;
                if after <= 16_777_216 {
                    Some(after as u64)
                } else {
                    None
                }
            } else {
                None
            }
        }
        _ => Some(read),
    }
}

fn is_in_image(script: &Script, image: u32, start: u64, count: u64) -> bool
    ensures { result ≡ is_in_image script.now image start count }
{
    let block = block_at(script, image) as u128;
    let blocks = blocks_at(script, image) as u128;
    0 < count && start as u128 + count as u128 <= blocks && count as u128 * block <= 131_072
}

fn block_at(script: &Script, image: u32) -> u32
    ensures { result ≡ block_at script.now image }
{
    match script.images.as_slice().get(image as usize) {
        Some(found) => found.block,
        None => 0,
    }
}

fn blocks_at(script: &Script, image: u32) -> u64
    ensures { result ≡ blocks_at script.now image }
{
    match script.images.as_slice().get(image as usize) {
        Some(found) => found.blocks,
        None => 0,
    }
}
