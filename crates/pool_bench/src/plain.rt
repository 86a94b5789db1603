//! The same over a plain queue and plain slices.
ghost use Rattle.std.specs.Prelude.{◌≤◌};

use crate::images::{RANGE, RANGES, first_of};
use crate::pooled::BUFFERS;
use crossbeam_queue::ArrayQueue;
use lw_base::NoMemory;
use lw_pool::SMALL_BYTES;
use std::alloc::Global;
use std::sync::Wait;
use std::thread::Threads;
use std::{cmp, thread};

/// So many pops and pushes of each of so many machine threads, over one queue. Answers how many pops found a buffer.
pub fn pops_and_pushes<R: Threads + Wait + Sync>(
    rt: &R,
    alloc: Global,
    rounds: u32,
    threads: u32,
) -> Result<u64, NoMemory>
    requires { 1 ≤ threads }
{
    let queue = full_queue(rt, alloc)?;
    let shared = &queue;
    let mut counts = vec![in alloc; 0u64; threads as usize]?;
    thread::for_each_mut(
        rt,
        counts.as_mut_slice(),
        threads as usize,
        &|_, found| *found = pop_and_push(rt, shared, rounds),
    );
    let mut all: u64 = 0;
    for found in counts.iter() {
        all = all.saturating_add(*found);
    }
    Ok(all)
}

// A queue of as many buffers as the pool has.
fn full_queue<R: Wait>(rt: &R, alloc: Global) -> Result<ArrayQueue<Vec<u8>>, NoMemory> {
    let queue = ArrayQueue::new(alloc, BUFFERS as usize)?;
    for _ in 0..BUFFERS {
        let _full = queue.push(rt, Vec::from_elem(alloc, 0u8, SMALL_BYTES)?);
    }
    Ok(queue)
}

fn pop_and_push<R: Wait>(rt: &R, queue: &ArrayQueue<Vec<u8>>, rounds: u32) -> u64 {
    let mut found: u64 = 0;
    for _ in 0..rounds {
        if let Some(bytes) = queue.pop(rt) {
            let _full = queue.push(rt, bytes);
            found = found.saturating_add(1);
        }
    }
    found
}

/// So many copies out of many ranges into one. Answers how many were made.
pub fn copies_out(alloc: Global, rounds: u32) -> Result<u64, NoMemory> {
    let all = ranges(alloc, RANGES)?;
    let mut one = ranges(alloc, 1)?;
    let mut made: u64 = 0;
    for round in 0..rounds {
        if let Some(range) = all.get(first_byte(round)..) {
            made = made.saturating_add(copy(range, one.as_mut_slice()));
        }
    }
    Ok(made)
}

/// So many copies of one range into many. Answers how many were made.
pub fn copies_in(alloc: Global, rounds: u32) -> Result<u64, NoMemory> {
    let one = ranges(alloc, 1)?;
    let mut all = ranges(alloc, RANGES)?;
    let mut made: u64 = 0;
    for round in 0..rounds {
        if let Some(range) = all.as_mut_slice().get_mut(first_byte(round)..) {
            made = made.saturating_add(copy(one.as_slice(), range));
        }
    }
    Ok(made)
}

// The bytes of so many ranges.
fn ranges(alloc: Global, count: usize) -> Result<Vec<u8>, NoMemory> {
    Ok(Vec::from_elem(alloc, 1u8, count.saturating_mul(RANGE))?)
}

// Where the range of a round starts.
fn first_byte(round: u32) -> usize {
    round as usize % RANGES * RANGE
}

// Copies as many bytes as both have, and answers the first of them.
fn copy(from: &[u8], into: &mut [u8]) -> u64 {
    let count = cmp::min(from.len(), into.len());
    into[..count].copy_from_slice(&from[..count]);
    first_of(into)
}
