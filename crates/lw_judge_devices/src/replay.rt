//! An image while the requests of its journal are gone through: the last write of each block, and no bytes.
ghost use Rattle.std.specs.Prelude.{◌≡◌, ℕ, ◌+◌, ◌*◌, ◌^◌, ◌<◌, ◌≤◌, [], ◌∷◌, length, List, Option, Some, IfOk, OnOk, nat_le, nat_lt, ◌&&◌, if◌then◌else◌, slice_index, ◌%◌, ◌++◌, map, option_map, replicate};
ghost use Rattle.std.specs.List.{range_with_len};

use lw_base::NoMemory;
use lw_model::{ImageOf, Items, Op, Replied};
use std::alloc::Global;

/// A write that was run: its first block, and the pattern that it repeats from there on.
#[derive(Copy, Clone, Drop)]
pub struct Written<'a> {
    start: u64,
    pattern: &'a [u8],
}

/// An image behind some of the requests of its journal.
#[derive(Drop)]
pub struct Replay<'a> {
    block: u64,
    /// For each block the number, from 1, of the last write that covers it; 0 where none does.
    last: Vec<u64>,
    writes: Vec<Written<'a>>,
    ghost some: { 0 < block },
    ghost small: { length last.items * block ≤ 16777216 },
}

impl<'a> Replay<'a> {
    ghost use Rattle.lw_model.specs.declared.script.Op.{Op};
    ghost use Rattle.lw_model.specs.Replay.{answer_after, bytes_after};
    ghost use Rattle.lw_judge_devices.specs.Replayed.{IsAfter, ReadsWithin, last_write, range_of};

    /// The image before its first request.
    pub fn new(alloc: Global, image: &ImageOf) -> Result<Self, NoMemory>
        requires some { 0 < image.now.block }
        requires small { image.now.blocks * image.now.block ≤ 16777216 }
        ensures block { IfOk result (λ replay. replay.block ≡ image.now.block) }
        ensures blocks { IfOk result (λ replay. length replay.last.items ≡ image.now.blocks) }
        ensures after { IfOk result (IsAfter []) }
    {
        Ok(Replay {
            block: image.block as u64,
            last: vec![in alloc; 0; image.blocks as usize]?,
            writes: Vec::new(alloc),
        })
    }

    /// Goes past a request.
    pub fn step(&mut self, request: &'a Op) -> Result<(), NoMemory>
        ensures block { self.new.block ≡ self.old.block }
        ensures blocks { length self.new.last.items ≡ length self.old.last.items }
        ensures after { OnOk result ((past : List (Option Op)) → IsAfter past self.old
            → IsAfter (Some request.now ∷ past) self.new) }
    {
        if let Op::Write {
            start,
            count,
            pattern,
            ..
        } = request
        {
            self.writes.push(Written {
                start: *start,
                pattern: pattern.as_slice(),
            })?;
            let number = self.writes.len() as u64;
            cover(&mut self.last, *start, *count, number);
        }
        Ok(())
    }

    /// What a request is answered: none where it asks neither for bytes nor for writes.
    pub fn answer(&self, alloc: Global, request: &Op) -> Result<Option<Replied>, NoMemory>
        requires { ReadsWithin (length self.now.last.items) request.now }
        ensures { IfOk result (λ answer. (past : List (Option Op)) → IsAfter past self.now
            → answer ≡ answer_after self.now.block past request.now) }
    {
        Ok(match request {
            Op::Write { .. } => Some(Replied::Ok),
            Op::Read { start, count, .. } => {
                Some(Replied::Bytes(self.read(alloc, *start, *count)?))
            }
            Op::Flush { .. } => Some(Replied::Writes(self.writes.len() as u64)),
            _ => None,
        })
    }

    // The bytes of `count` blocks from `start` on.
    fn read(&self, alloc: Global, start: u64, count: u64) -> Result<Items<u8>, NoMemory>
        requires { start + count ≤ length self.now.last.items }
        ensures { IfOk result (λ bytes. (past : List (Option Op)) → IsAfter past self.now
            → bytes ≡ bytes_after self.now.block past start count) }
    {
        let mut bytes = Vec::with_capacity(alloc, (count * self.block) as usize)?;
        for block in start..start + count {
            self.push_block(&mut bytes, block)?;
        }
        Ok(Items::from_vec(bytes))
    }

    // Adds the bytes of a block to others.
    fn push_block(&self, bytes: &mut Vec<u8>, block: u64) -> Result<(), NoMemory>
        requires { block < length self.now.last.items }
        ensures { OnOk result ((past : List (Option Op)) → IsAfter past self.now
            → bytes.new.items ≡ bytes.old.items ++ bytes_after self.now.block past block 1) }
    {
        match self.last_write(block) {
            Some(write) if !write.pattern.is_empty() => {
                let from = block.saturating_sub(write.start) * self.block;
                push_repeated(bytes, write.pattern, from, self.block)
            }
            _ => push_zeros(bytes, self.block),
        }
    }

    // The last write that covers a block.
    fn last_write(&self, block: u64) -> Option<Written<'a>>
        requires { block < length self.now.last.items }
        ensures { (past : List (Option Op)) → IsAfter past self.now
            → option_map range_of result ≡ last_write past block }
    {
        let number = self.last[block as usize];
        if number == 0 {
            return None;
        }
        self.writes.get(number as usize - 1).copied()
    }
}

// Adds so many bytes of a repeated pattern to others, from the pattern's byte `from` on.
fn push_repeated(bytes: &mut Vec<u8>, pattern: &[u8], from: u64, count: u64) -> Result<(), NoMemory>
    requires some { 0 < length pattern.now }
    requires small { from + count < 2 ^ 64 }
    ensures { OnOk result (bytes.new.items ≡ bytes.old.items
        ++ map (λ i. slice_index pattern.now (i % length pattern.now)) (range_with_len from count)) }
{
    let mut place = (from % pattern.len() as u64) as usize;
    for _ in 0..count {
        bytes.push(pattern[place])?;
        place += 1;
        if place == pattern.len() {
            place = 0;
        }
    }
    Ok(())
}

// Adds so many zeros to other bytes.
fn push_zeros(bytes: &mut Vec<u8>, count: u64) -> Result<(), NoMemory>
    ensures { OnOk result (bytes.new.items ≡ bytes.old.items ++ replicate count 0) }
{
    for _ in 0..count {
        bytes.push(0)?;
    }
    Ok(())
}

// Notes the number of a write in the blocks that it covers, as far as they are there.
fn cover(last: &mut [u64], start: u64, count: u64, number: u64)
    ensures { (b : ℕ) → b < length last.old
        → slice_index last.new b
        ≡ (if nat_le start b && nat_lt b (start + count) then number else slice_index last.old b) }
{
    let end = start.saturating_add(count).min(last.len() as u64);
    let first = start.min(end);
    last[first as usize..end as usize].fill(number);
}
