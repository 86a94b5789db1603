//! How a request is run.
ghost use Rattle.std.specs.Prelude.{◌≡◌, ◌+◌, ◌^◌, ◌<◌, ◌≤◌, None, Some, MatchOption};
ghost use Rattle.lw_model.specs.Threads.{op_at, is_client};
ghost use Rattle.lw_image.specs.Image.{SameSize};
ghost use Rattle.lw_owner.specs.Serving.{CanRun, CanRead, IsReply, IsPlain, ReadsInto};

use lw_image::Image;
use lw_mail::Content;
use lw_model::{Op, Script};
use lw_pool::Buffer;

// Whether a thread is a client.
pub(crate) fn is_client(script: &Script, thread: u32) -> bool
    ensures { result ≡ is_client script.now thread }
{
    0 < thread && thread as usize <= script.clients.len()
}

// The op of a client, where there is one.
pub(crate) fn op_of(script: &Script, client: u32, op: u32) -> Option<&Op>
    ensures { MatchOption result (op_at script.now client op ≡ None) (λ o. op_at script.now client op ≡ Some o.now) }
{
    let place = client.checked_sub(1)?;
    let of = script.clients.as_slice().get(place as usize)?;
    of.ops.as_slice().get(op as usize)
}

// Runs a write or a flush, which is the op of this number, and makes the reply.
pub(crate) fn write_or_flush(image: &mut Image, of: &Op, op: u32) -> Content
    requires can { CanRun image.old of.now }
    requires room { image.old.writes + 1 < 2 ^ 64 }
    ensures reply { IsReply image.old image.new of.now op result }
    ensures plain { IsPlain result }
    ensures size { SameSize image.old image.new }
    ensures writes { image.new.writes ≤ image.old.writes + 1 }
{
    match of {
        Op::Write {
            start,
            count,
            pattern,
            ..
        } => {
            image.write(*start, *count, pattern.as_slice());
            Content::Written { op }
        }
        Op::Flush { .. } => Content::Flushed {
            op,
            writes: image.flush(),
        },
        _ => unreachable!(),
    }
}

// Runs a read, which is the op of this number, into the buffer, and makes the reply with it.
pub(crate) fn read(image: &Image, of: &Op, op: u32, mut buffer: Buffer) -> Content
    requires { CanRead image.now buffer of.now }
    ensures reply { IsReply image.now image.now of.now op result }
    ensures back { ReadsInto image.now of.now op buffer result }
{
    match of {
        Op::Read { start, count, .. } => {
            image.read_into(*start, *count, &mut buffer);
            Content::Filled { op, buffer }
        }
        _ => unreachable!(),
    }
}
