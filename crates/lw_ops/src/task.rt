//! The ops of a client, as far as it needs them to do them.
ghost use Rattle.std.specs.Prelude.{◌≡◌, ◌*◌, ◌<◌, ◌≤◌, length, None, Some, option_map, MatchOption};
ghost use Rattle.lw_model.specs.declared.script.Op.{Op};
ghost use Rattle.lw_model.specs.ScriptRules.{block_at};
ghost use Rattle.lw_model.specs.Threads.{op_at};
ghost use Rattle.lw_mail.specs.Fitting.{class_for};
ghost use Rattle.lw_ops.specs.Tasks.{MayStart, task_for};

use lw_model::{Op, Script};
use lw_pool::{Class, SMALL_BYTES};

/// What an op asks for. The owner of an image finds a request's operands in the script.
#[derive(Copy, Clone)]
pub enum Task {
    Get { image: u32 },
    Put { image: u32 },
    /// A write or a flush: a request that takes no buffer along.
    Ask { image: u32 },
    /// A read, with the class of the buffer that goes along.
    Read { image: u32, class: Class },
    Wait { ticks: u64 },
    Visit { image: u32 },
    Each,
    Unregister { image: u32 },
}

/// The op of a client, where there is one.
pub fn op_of(script: &Script, client: u32, op: u32) -> Option<&Op>
    ensures { MatchOption result (op_at script.now client op ≡ None) (λ o. op_at script.now client op ≡ Some o.now) }
{
    let place = client.checked_sub(1)?;
    let of = script.clients.as_slice().get(place as usize)?;
    of.ops.as_slice().get(op as usize)
}

// The class of the buffer for a read of so many blocks of an image.
fn class_of(script: &Script, image: u32, count: u64) -> Class
    requires image { image < length script.now.images }
    requires few { count * block_at script.now image ≤ 131072 }
    ensures { result ≡ class_for (count * block_at script.now image) }
{
    let block = script.images.as_slice()[image as usize].block;
    if count * u64::from(block) <= SMALL_BYTES as u64 {
        Class::Small
    } else {
        Class::Large
    }
}

/// What the op of a client asks for, where there is one.
pub fn task_of(script: &Script, client: u32, op: u32) -> Option<Task>
    requires { (o : Op) → op_at script.now client op ≡ Some o → MayStart script.now o }
    ensures { result ≡ option_map (task_for script.now) (op_at script.now client op) }
{
    Some(match op_of(script, client, op)? {
        Op::Get { image } => Task::Get { image: *image },
        Op::Put { image } => Task::Put { image: *image },
        Op::Write { image, .. } | Op::Flush { image } => Task::Ask { image: *image },
        Op::Read { image, count, .. } => Task::Read {
            image: *image,
            class: class_of(script, *image, *count),
        },
        Op::Wait { ticks } => Task::Wait { ticks: *ticks },
        Op::Visit { image } => Task::Visit { image: *image },
        Op::Each => Task::Each,
        Op::Unregister { image } => Task::Unregister { image: *image },
    })
}
