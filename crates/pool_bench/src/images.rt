//! Reads and writes of an image, each of one range after the other.
ghost use Rattle.std.specs.Prelude.{◌≡◌, ◌≤◌, IfOk};
ghost use Rattle.lw_pool.specs.declared.class.Class.TheVariants.{Large};

use lw_base::NoMemory;
use lw_image::Image;
use lw_pool::{Buffer, Class, pool};
use std::alloc::Global;
use std::sync::Wait;

/// How many bytes a read or a write has: as many as a request may have at most.
pub const RANGE: usize = 131_072;

/// Over how many ranges reads and writes go.
pub const RANGES: usize = 64;

/// How many bytes a block has, and how many blocks a range.
const BLOCK: u32 = 512;

const BLOCKS_OF_A_RANGE: u64 = 256;

/// So many reads. Answers how many were made.
pub fn reads<R: Wait>(rt: &R, alloc: Global, rounds: u32) -> Result<u64, NoMemory> {
    let mut image = new_image(alloc)?;
    image.write(0, BLOCKS_OF_A_RANGE * RANGES as u64, &[1]);
    let mut buffer = large_buffer(rt, alloc)?;
    let mut made: u64 = 0;
    for round in 0..rounds {
        image.read_into(start_of(round), BLOCKS_OF_A_RANGE, &mut buffer);
        made = made.saturating_add(first_of(buffer.filled()));
    }
    Ok(made)
}

/// So many writes of a pattern of 64 bytes. Answers how many were made.
pub fn writes(alloc: Global, rounds: u32) -> Result<u64, NoMemory> {
    let mut image = new_image(alloc)?;
    for round in 0..rounds {
        image.write(start_of(round), BLOCKS_OF_A_RANGE, &[1; 64]);
    }
    Ok(image.flush())
}

fn new_image(alloc: Global) -> Result<Image, NoMemory>
    ensures size { IfOk result (λ i. (i.block ≡ 512) × (i.blocks ≡ 16384)) }
    ensures writes { IfOk result (λ i. i.writes ≡ 0) }
{
    Image::zero(alloc, BLOCKS_OF_A_RANGE * RANGES as u64, BLOCK)
}

fn large_buffer<R: Wait>(rt: &R, alloc: Global) -> Result<Buffer, NoMemory>
    ensures { IfOk result (λ b. b.class ≡ Large) }
{
    let mut passes = pool(rt, alloc, 1, 1, 1)?;
    let Some(mut pass) = passes.pop() else {
        unreachable!()
    };
    let Ok(buffer) = pass.take(rt, Class::Large) else {
        unreachable!()
    };
    Ok(buffer)
}

// Where the range of a round starts, in blocks.
fn start_of(round: u32) -> u64
    ensures { result ≤ 16128 }
{
    u64::from(round) % RANGES as u64 * BLOCKS_OF_A_RANGE
}

/// The first byte, or 0 where there is none.
pub fn first_of(bytes: &[u8]) -> u64 {
    match bytes.first() {
        Some(byte) => u64::from(*byte),
        None => 0,
    }
}
