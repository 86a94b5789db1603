//! Messages between light threads, and polls of threads that have nothing to do.
ghost use Rattle.std.specs.Prelude.{◌≡◌, All, IfOk, OnOk, false, length};

use crate::making::two;
use crate::volley::Volley;
use anyhow::Result;
use lw_base::{NoMemory, Tick};
use lw_thread::{LightThread, Stop};
use std::alloc::Global;
use std::sync::Wait;

/// Two light threads that send each other `batch` messages, and are polled in turn, so many times each. Answers how many messages
/// they sent.
pub fn volleys<R: Wait>(rt: &R, alloc: Global, rounds: u64, batch: u32) -> Result<u64> {
    let (mut one, mut other) = two(alloc, batch)?;
    let _poller = one.add_active()?;
    in_turn(rt, &mut one, &mut other, rounds)?;
    Ok(
        one.into_end(1)
            .sent()
            .saturating_add(other.into_end(0).sent()),
    )
}

// Polls both in turn.
fn in_turn<R: Wait>(
    rt: &R,
    one: &mut LightThread<Volley>,
    other: &mut LightThread<Volley>,
    rounds: u64,
) -> Result<(), Stop>
    requires one { (one.old.stopped ≡ false) × (length one.old.ends ≡ 2) }
    requires other { (other.old.stopped ≡ false) × (length other.old.ends ≡ 2) }
    ensures one { OnOk result (length one.new.ends ≡ 2) }
    ensures other { OnOk result (length other.new.ends ≡ 2) }
{
    for now in 0..rounds {
        one.poll(rt, now)?;
        other.poll(rt, now)?;
    }
    Ok(())
}

/// How many threads have nothing to do.
const IDLE: u64 = 64;

/// 64 threads without a poller, to which nothing comes: each the first of a run of two.
pub fn idle_threads(alloc: Global) -> Result<Vec<LightThread<Volley>>, NoMemory>
    ensures { IfOk result (λ v. All (λ t. t.stopped ≡ false) v.items) }
{
    let mut threads = Vec::new(alloc);
    for _ in 0..IDLE {
        let (one, _other) = two(alloc, 0)?;
        threads.push(one)?;
    }
    Ok(threads)
}

/// Polls each thread once. Answers how many found work.
pub fn poll_each<R: Wait>(
    rt: &R,
    threads: &mut [LightThread<Volley>],
    now: Tick,
) -> Result<u64, Stop>
    requires { All (λ t. t.stopped ≡ false) threads.old }
    ensures { OnOk result (All (λ t. t.stopped ≡ false) threads.new) }
{
    let mut worked: u64 = 0;
    for thread in threads.iter_mut() {
        if thread.poll(rt, now)?.worked {
            worked = worked.saturating_add(1);
        }
    }
    Ok(worked)
}

/// Polls 64 idle threads in turn, so many times each. Answers how many polls found work.
pub fn idle_polls<R: Wait>(
    rt: &R,
    threads: &mut [LightThread<Volley>],
    rounds: u64,
) -> Result<u64, Stop>
    requires { All (λ t. t.stopped ≡ false) threads.old }
{
    let mut worked: u64 = 0;
    for now in 0..rounds {
        worked = worked.saturating_add(poll_each(rt, threads, now)?);
    }
    Ok(worked)
}
