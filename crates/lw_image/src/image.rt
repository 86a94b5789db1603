//! One image.
ghost use Rattle.std.specs.Prelude.{◌≡◌, ℕ, List, ◌+◌, ◌*◌, ◌^◌, ◌<◌, ◌≤◌, [], ◌∷◌, length, drop, Option, Some, IfOk};
ghost use Rattle.lw_model.specs.declared.script.Op.{Op};
ghost use Rattle.lw_model.specs.declared.script.Op.TheVariants.{Write};
ghost use Rattle.lw_model.specs.Replay.{bytes_after};
ghost use Rattle.lw_pool.specs.Sizes.{size_of};
ghost use Rattle.lw_pool.specs.PoolEnds.{filled_bytes};
ghost use Rattle.lw_image.specs.Image.{HasRange, SameSize, IsAfter};

use crate::fill::fill_with;
use lw_base::NoMemory;
use lw_pool::Buffer;
use std::alloc::Global;
use std::marker::Model;

/// An image in memory, of `blocks` blocks of `block` bytes each, with a count of the writes that it has run.
///
/// No request is kept: contracts say of each list of requests that could have made the image what one more makes of
/// it.
#[derive(Drop)]
pub struct Image {
    block: u32,
    blocks: u64,
    bytes: Vec<u8>,
    writes: u64,
}

impl Model for Image {
    ghost use Rattle.std.specs.Prelude.{◌≡◌, ◌*◌, ◌≤◌, vec_len};
    ghost use Rattle.lw_image.specs.Image.{Contents};

    ghost Value = { Contents };

    ghost view = { λ i. record { block = i.block; blocks = i.blocks; bytes = i.bytes.items; writes = i.writes } };

    ghost invariant = { λ i. (vec_len i.bytes ≡ i.blocks * i.block) × (i.blocks * i.block ≤ 16777216) };
}

impl Image {
    /// An image of zeros, at most 16,777,216 of them.
    pub fn zero(alloc: Global, blocks: u64, block: u32) -> Result<Image, NoMemory>
        requires { blocks * block ≤ 16777216 }
        ensures size { IfOk result (λ image. (image.block ≡ block) × (image.blocks ≡ blocks)) }
        ensures zeros { IfOk result (λ image. IsAfter image []) }
    {
        let length = (blocks * block as u64) as usize;
        Ok(Image {
            block,
            blocks,
            bytes: vec![in alloc; 0; length]?,
            writes: 0,
        })
    }

    /// Fills `count` blocks from `start` on with the pattern, repeated from the range's first byte on.
    pub fn write(&mut self, start: u64, count: u64, pattern: &[u8])
        requires range { HasRange self.old start count }
        requires pattern { 0 < length pattern.now }
        requires room { self.old.writes + 1 < 2 ^ 64 }
        ensures size { SameSize self.old self.new }
        ensures writes { self.new.writes ≡ self.old.writes + 1 }
        ensures after { (device : ℕ) (past : List (Option Op)) → IsAfter self.old past
            → IsAfter self.new (Some (Op.Write device start count pattern.now) ∷ past) }
    {
        let first = self.first_byte(start, count);
        let length = self.length(count);
        fill_with(&mut self.bytes[first..first + length], pattern);
        self.writes += 1;
    }

    /// Fills a buffer with `count` blocks from `start` on, and with no more. The buffer has room for them, and what it has
    /// behind them stays as it was.
    ///
    /// Of any list of requests that made the image what it is, these are the bytes that a read has behind them.
    pub fn read_into(&self, start: u64, count: u64, into: &mut Buffer)
        requires range { HasRange self.now start count }
        requires fits { count * self.now.block ≤ size_of into.old.class }
        ensures buffer { (into.new.queue ≡ into.old.queue) × (into.new.class ≡ into.old.class) }
        ensures filled { into.new.filled ≡ count * self.now.block }
        ensures read { (past : List (Option Op)) → IsAfter self.now past
            → filled_bytes into.new ≡ bytes_after self.now.block past start count }
        ensures behind { drop (count * self.now.block) into.new.bytes ≡ drop (count * self.now.block) into.old.bytes }
    {
        let length = self.length(count);
        self.copy_to(start, count, into.room(length));
    }

    // Copies `count` blocks from `start` on into a slice of exactly their length.
    fn copy_to(&self, start: u64, count: u64, into: &mut [u8])
        requires range { HasRange self.now start count }
        requires fits { length into.old ≡ count * self.now.block }
        ensures { (past : List (Option Op)) → IsAfter self.now past
            → into.new ≡ bytes_after self.now.block past start count }
    {
        let first = self.first_byte(start, count);
        into.copy_from_slice(&self.bytes[first..first + into.len()]);
    }

    /// How many writes were run before.
    pub fn flush(&mut self) -> u64
        ensures writes { result ≡ self.old.writes }
        ensures same { self.new ≡ self.old }
    {
        self.writes
    }

    // Where a range's first byte stands. The range's last one stands in the image too.
    fn first_byte(&self, start: u64, count: u64) -> usize
        requires { HasRange self.now start count }
        ensures first { result ≡ start * self.now.block }
        ensures within { result + count * self.now.block ≤ length self.now.bytes }
        ensures limit { length self.now.bytes ≤ 16777216 }
    {
        (start * self.block as u64) as usize
    }

    /// How many bytes so many of its blocks are.
    pub fn length(&self, count: u64) -> usize
        requires { count ≤ self.now.blocks }
        ensures { result ≡ count * self.now.block }
    {
        (count * self.block as u64) as usize
    }
}
