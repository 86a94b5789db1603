//! A thread's ops by their number.
ghost use Rattle.std.specs.Prelude.{◌≡◌, option_map};
ghost use Rattle.lw_model.specs.Threads.{op_at, image_at};

use lw_model::{Op, Script};

/// The op of a thread that has this number. Only clients have ops.
pub fn op_at(script: &Script, thread: usize, op: u32) -> Option<&Op>
    ensures { option_map (λ o. o.now) result ≡ op_at script.now thread op }
{
    if thread == 0 {
        return None;
    }
    let client = script.clients.as_slice().get(thread - 1)?;
    client.ops.as_slice().get(op as usize)
}

/// The image that the op of this number is on. The app's op k is device k.
pub fn image_at(script: &Script, thread: usize, op: u32) -> Option<u32>
    ensures { result ≡ image_at script.now thread op }
{
    if thread == 0 {
        return ((op as usize) < script.images.len()).then_some(op);
    }
    match op_at(script, thread, op)? {
        Op::Get { image }
        | Op::Put { image }
        | Op::Write { image, .. }
        | Op::Read { image, .. }
        | Op::Flush { image }
        | Op::Visit { image }
        | Op::Unregister { image } => Some(*image),
        Op::Wait { .. } | Op::Each => None,
    }
}
