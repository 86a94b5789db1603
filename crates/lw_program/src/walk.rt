//! The command `walk`: a text of events is answered by a world.
ghost use Rattle.std.specs.Prelude.{IfOk, IfErr};
ghost use Rattle.lw_program.specs.Commands.{Explains};
ghost use Rattle.lw_program.specs.Walks.{IsWalkAnswer, walk_command};

use crate::command::{Command, Told};
use crate::fault::Fault;
use lw_base::{Clock, Gate};
use lw_walk::{Walked, walk_text};
use std::alloc::Global;
use std::sync::Wait;

/// How many bytes a walk may have: 16 MiB.
const WALK_LIMIT: usize = 16_777_216;

/// The walk of a world.
#[derive(Copy, Clone)]
pub struct WalkCommand;

impl Command for WalkCommand {
    ghost use Rattle.lw_program.specs.Walks.{walk_command};

    type Value = ();

    ghost is = { λ _. walk_command };

    fn limit(&self) -> Option<usize> {
        Some(WALK_LIMIT)
    }

    fn answer<R: Wait, C: Clock + Drop, G: Gate>(
        self,
        _rt: &R,
        alloc: Global,
        bytes: &[u8],
        _clocks: Vec<C>,
        _gate: &G,
    ) -> Result<Told<()>, Fault> {
        answer_of(alloc, bytes)
    }
}

// The answer to a walk's bytes.
fn answer_of(alloc: Global, bytes: &[u8]) -> Result<Told<()>, Fault>
    ensures told { IfOk result (λ told. IsWalkAnswer bytes.now told.text.items) }
    ensures fault { IfErr result (Explains walk_command bytes.now) }
{
    match walk_text(alloc, bytes) {
        Ok(Walked::Text(text)) => Ok(Told { value: (), text }),
        Ok(Walked::BadLine { line }) => Err(Fault::Walk { line }),
        Err(_) => Err(Fault::NoMemory),
    }
}
