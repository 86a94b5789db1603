//! Takes and give-backs of a pool.
ghost use Rattle.std.specs.Prelude.{◌≡◌, ◌≤◌, IfOk, All};
ghost use Rattle.pool_bench.specs.Passes.{IsNew};

use lw_base::NoMemory;
use lw_pool::{Class, PoolPass, pool};
use std::alloc::Global;
use std::sync::Wait;
use std::sync::atomic::{AtomicU64, Ordering};
use std::thread;
use std::thread::Threads;

/// How many small buffers there are.
pub const BUFFERS: u32 = 64;

/// So many rounds of each of so many machine threads, over one pool. Answers how many takes found a buffer.
pub fn run<R: Threads + Wait + Sync>(
    rt: &R,
    alloc: Global,
    rounds: u32,
    threads: u32,
) -> Result<u64, NoMemory>
    requires { (1 ≤ threads) × (threads ≤ 127) }
{
    let mut passes = new_passes(rt, alloc, threads)?;
    let found = AtomicU64::new(0);
    thread::for_each_mut(
        rt,
        passes.as_mut_slice(),
        threads as usize,
        &|_, pass| take_and_count(rt, pass, rounds, &found),
    );
    Ok(found.load(Ordering::SeqCst))
}

fn new_passes<R: Wait>(rt: &R, alloc: Global, count: u32) -> Result<Vec<PoolPass>, NoMemory>
    requires { (1 ≤ count) × (count ≤ 127) }
    ensures { IfOk result (λ v. All IsNew v.items) }
{
    pool(rt, alloc, BUFFERS, 1, count)
}

// A thread's rounds, which are counted together once they are made.
fn take_and_count<R: Wait>(rt: &R, pass: &mut PoolPass, rounds: u32, found: &AtomicU64)
    requires { IsNew pass.old }
{
    found.fetch_add(take_and_give_back(rt, pass, rounds), Ordering::SeqCst);
}

// Takes a small buffer and gives it back, round by round. Answers how many takes found one.
fn take_and_give_back<R: Wait>(rt: &R, pass: &mut PoolPass, rounds: u32) -> u64
    requires { IsNew pass.old }
{
    let mut found: u64 = 0;
    for _ in 0..rounds {
        if let Ok(buffer) = pass.take(rt, Class::Small) {
            pass.give_back(rt, buffer);
            found = found.saturating_add(1);
        }
    }
    found
}
