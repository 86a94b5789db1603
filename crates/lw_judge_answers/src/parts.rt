//! What is listed under a thread, in the record and in its script.
ghost use Rattle.std.specs.Prelude.{◌≡◌, length, option_map, slice_get};
ghost use Rattle.lw_model.specs.Threads.{ops_of, depth_of, did_of, ran_of};
ghost use Rattle.lw_model.specs.Answers.{called_of};

use lw_model::{Called, Did, Op, Record, Script};

/// The `did` lines of a thread.
pub fn dids_of(of: &Record, thread: usize) -> &[Did]
    ensures { result.now ≡ did_of of.now thread }
{
    match of.threads.as_slice().get(thread) {
        Some(lines) => lines.did.as_slice(),
        None => &[],
    }
}

/// The `did` line of a thread that has this place.
pub fn did_at(of: &Record, thread: usize, place: usize) -> Option<&Did>
    ensures { option_map (λ x. x.now) result ≡ slice_get (did_of of.now thread) place }
{
    dids_of(of, thread).get(place)
}

/// The callbacks that were made on a thread.
pub fn calleds_of(of: &Record, thread: usize) -> &[Called]
    ensures { result.now ≡ called_of of.now thread }
{
    match of.threads.as_slice().get(thread) {
        Some(lines) => lines.called.as_slice(),
        None => &[],
    }
}

/// How many messages a thread ran.
pub fn ran_count(of: &Record, thread: usize) -> usize
    ensures { result ≡ length (ran_of of.now thread) }
{
    match of.threads.as_slice().get(thread) {
        Some(lines) => lines.ran.len(),
        None => 0,
    }
}

/// How many ops a thread has. Only clients have ops.
pub fn op_count(script: &Script, thread: usize) -> usize
    ensures { result ≡ length (ops_of script.now thread) }
{
    if thread == 0 {
        return 0;
    }
    match script.clients.as_slice().get(thread - 1) {
        Some(client) => client.ops.len(),
        None => 0,
    }
}

/// How many requests of a thread may be unanswered at once.
pub fn depth_of(script: &Script, thread: usize) -> u32
    ensures { result ≡ depth_of script.now thread }
{
    if thread == 0 {
        return 0;
    }
    match script.clients.as_slice().get(thread - 1) {
        Some(client) => client.depth,
        None => 0,
    }
}
