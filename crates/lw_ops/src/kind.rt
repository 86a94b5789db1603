//! The kinds of requests.
ghost use Rattle.std.specs.Prelude.{◌≡◌, Some};
ghost use Rattle.lw_model.specs.Threads.{is_client};
ghost use Rattle.lw_ops.specs.Kinds.{requested};

use lw_model::{Op, Script};

/// The kinds of requests, and of their replies.
#[derive(Copy, Clone)]
pub enum Kind {
    Write,
    Read,
    Flush,
}

/// The image of an op, where it is a request of this kind.
pub fn requested(op: &Op, kind: Kind) -> Option<u32>
    ensures { result ≡ requested kind (Some op.now) }
{
    match (op, kind) {
        (Op::Write { image, .. }, Kind::Write)
        | (Op::Read { image, .. }, Kind::Read)
        | (Op::Flush { image }, Kind::Flush) => Some(*image),
        _ => None,
    }
}

/// Whether a thread is a client of the script.
pub fn is_a_client(script: &Script, thread: u32) -> bool
    ensures { result ≡ is_client script.now thread }
{
    thread > 0 && thread as usize <= script.clients.len()
}
