//! The buffers that an owner reads into.
ghost use Rattle.std.specs.Prelude.{◌≡◌, ◌<◌, ◌≤◌, ◌*◌, List, Option, length, IfOk};
ghost use Rattle.lw_model.specs.Replay.{bytes_after};
ghost use Rattle.lw_model.specs.declared.script.Op.{Op};
ghost use Rattle.lw_pool.specs.Sizes.{size_of};
ghost use Rattle.lw_image.specs.Image.{HasRange, IsAfter};

use lw_base::NoMemory;
use lw_image::Image;
use lw_model::Items;
use lw_pool::{Buffer, Class, SMALL_BYTES, pool};
use std::alloc::Global;
use std::marker::Model;
use std::sync::Wait;

/// One buffer of each class. A request is answered before the next one runs, so it needs no others.
#[derive(Drop)]
pub struct Buffers {
    small: Buffer,
    large: Buffer,
}

impl Model for Buffers {
    ghost use Rattle.std.specs.Prelude.{◌≡◌};
    ghost use Rattle.lw_pool.specs.declared.class.Class.TheVariants.{Small, Large};

    ghost Value = { Unit {0} };

    ghost view = { λ _. tt };

    ghost invariant = { λ b. (b.small.class ≡ Small) × (b.large.class ≡ Large) };
}

impl Buffers {
    /// The buffers of a pool that has no others.
    pub fn new<R: Wait>(rt: &R, alloc: Global) -> Result<Buffers, NoMemory> {
        let mut passes = pool(rt, alloc, 1, 1, 1)?;
        let Some(mut pass) = passes.pop() else {
            unreachable!()
        };
        let Ok(small) = pass.take(rt, Class::Small) else {
            unreachable!()
        };
        let Ok(large) = pass.take(rt, Class::Large) else {
            unreachable!()
        };
        Ok(Buffers { small, large })
    }

    /// The bytes of a range, read into the buffer of the least class that has room.
    pub fn read(
        &mut self,
        alloc: Global,
        image: &Image,
        start: u64,
        count: u64,
    ) -> Result<Items<u8>, NoMemory>
        requires some { 0 < count }
        requires range { HasRange image.now start count }
        requires block { 0 < image.now.block }
        requires fits { count * image.now.block ≤ 131072 }
        ensures bytes { IfOk result (λ bytes. (past : List (Option Op)) → IsAfter image.now past
            → bytes ≡ bytes_after image.now.block past start count) }
        ensures length { IfOk result (λ bytes. 0 < length bytes) }
    {
        if image.length(count) <= SMALL_BYTES {
            read_by(alloc, image, start, count, &mut self.small)
        } else {
            read_by(alloc, image, start, count, &mut self.large)
        }
    }
}

// The bytes of a range, read into this buffer and copied out of it.
fn read_by(
    alloc: Global,
    image: &Image,
    start: u64,
    count: u64,
    buffer: &mut Buffer,
) -> Result<Items<u8>, NoMemory>
    requires some { 0 < count }
    requires range { HasRange image.now start count }
    requires block { 0 < image.now.block }
    requires fits { count * image.now.block ≤ size_of buffer.old.class }
    ensures class { buffer.new.class ≡ buffer.old.class }
    ensures bytes { IfOk result (λ bytes. (past : List (Option Op)) → IsAfter image.now past
        → bytes ≡ bytes_after image.now.block past start count) }
    ensures length { IfOk result (λ bytes. 0 < length bytes) }
{
    image.read_into(start, count, buffer);
    Ok(Items::from_vec(Vec::from_slice(alloc, buffer.filled())?))
}
