//! The first op whose pattern is refused.
ghost use Rattle.std.specs.Prelude.{◌≡◌, ◌<◌, length, IfSome, not, option_map, position};
ghost use Rattle.lw_model.specs.ScriptRules.{all_ops, first_bad_pattern, is_pattern};

use crate::limits::is_within;
use lw_model::{Op, Script};

/// The client and the place among its ops of the first op, in script order, whose pattern is refused.
pub fn first_bad_pattern(script: &Script) -> Option<(usize, usize)>
    ensures first { result ≡ option_map (λ p. (p.client, p.place)) (first_bad_pattern script.now) }
    ensures within { IfSome result (λ p.
        (p.0 < length script.now.clients) × (p.1 < length (all_ops script.now))) }
{
    let clients = script.clients.as_slice();
    for (client, of) in clients.iter().enumerate() {
        let found = bad_pattern_in(of.ops.as_slice());
        match found {
            Some(place) => return Some((client, place)),
            None => {}
        }
    }
    None
}

fn bad_pattern_in(ops: &[Op]) -> Option<usize>
    ensures first { result ≡ position (λ o. not (is_pattern o)) ops.now }
    ensures within { IfSome result (λ j. j < length ops.now) }
{
    ops.iter().position(|op| !is_pattern(op))
}

// A pattern that is no pairs of hexadecimal digits was read as one of no bytes.
fn is_pattern(op: &Op) -> bool
    ensures { result ≡ is_pattern op.now }
{
    match op {
        Op::Write { pattern, .. } => is_within(1, 64, pattern.len() as u64),
        _ => true,
    }
}
