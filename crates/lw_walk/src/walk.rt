//! A walk: a text of events, and the answer of a world to each.
ghost use Rattle.std.specs.Prelude.{◌≡◌, ◌≤◌, IfOk, length};
ghost use Rattle.lw_walk.specs.Walk.{IsWalked};

use crate::walk::answers::push_answers;
use crate::walk::lines::Lines;
use crate::walk::state_text::push_state;
use lw_base::NoMemory;
use lw_world::World;
use std::alloc::Global;

mod answers;
mod form;
mod lines;
mod parts;
mod state_text;

// The most bytes of a walk.
const MOST_BYTES: usize = 16_777_216;

/// How many threads, reactors and devices a world has.
#[derive(Copy, Clone, PartialEq, Eq, Debug)]
pub struct Sizes {
    pub threads: u32,
    pub reactors: u32,
    pub devices: u32,
}

/// What a text is as a walk.
#[derive(Drop)]
pub enum Walked {
    /// The first line that isn't of the form, from 1; 0 where the text is too long.
    BadLine { line: u64 },
    /// The answer.
    Text(Vec<u8>),
}

/// The answer to a walk, or its first bad line (docs/walk.md).
///
/// Linear in the bytes of the text. Only memory can be lacking.
pub fn walk_text(alloc: Global, bytes: &[u8]) -> Result<Walked, NoMemory>
    ensures { IfOk result (λ w. IsWalked bytes.now w) }
{
    if bytes.len() > MOST_BYTES {
        Ok(Walked::BadLine { line: 0 })
    } else {
        walk_lines(alloc, bytes)
    }
}

fn walk_lines(alloc: Global, bytes: &[u8]) -> Result<Walked, NoMemory>
    requires { length bytes.now ≤ 16777216 }
    ensures { IfOk result (λ w. IsWalked bytes.now w) }
{
    let mut lines = Lines::of(bytes);
    let Some(sizes) = lines.sizes() else {
        return Ok(Walked::BadLine { line: 1 })
    };
    let mut world = World::new(alloc, sizes.threads, sizes.reactors, sizes.devices)?;
    let mut out = String::new(alloc);
    match push_answers(&mut out, &mut world, &mut lines)? {
        Some(line) => Ok(Walked::BadLine { line }),
        None => {
            push_state(&mut out, &world)?;
            Ok(Walked::Text(out.into_bytes()))
        }
    }
}
