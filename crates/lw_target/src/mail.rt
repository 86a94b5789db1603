//! What the threads of the target send each other.
ghost use Rattle.std.specs.Prelude.{◌≡◌, IfOk};
ghost use Rattle.lw_target.specs.Messages.{operands};

use lw_base::{NoMemory, Tag};
use lw_model::{Items, Op, Replied};
use std::alloc::Global;

/// A message: its tag, and what it carries.
#[derive(Drop)]
pub struct Mail {
    pub tag: Tag,
    pub load: Load,
}

/// What a message carries beside its tag.
#[derive(Drop)]
pub enum Load {
    /// The operands of a write, with the pattern that fills the range.
    Write {
        start: u64,
        count: u64,
        pattern: Items<u8>,
    },
    /// The operands of a read.
    Read {
        start: u64,
        count: u64,
    },
    /// An owner's answer to a request.
    Replied(Replied),
    Nothing,
}

/// What an op hands to the owner of its image. The pattern is copied here, once.
pub fn load_of(alloc: Global, op: &Op) -> Result<Load, NoMemory>
    ensures { IfOk result (λ load. load ≡ operands op.now) }
{
    match op {
        Op::Write {
            start,
            count,
            pattern,
            ..
        } => Ok(Load::Write {
            start: *start,
            count: *count,
            pattern: Items::from_vec(Vec::from_slice(alloc, pattern.as_slice())?),
        }),
        Op::Read { start, count, .. } => Ok(Load::Read {
            start: *start,
            count: *count,
        }),
        _ => Ok(Load::Nothing),
    }
}
