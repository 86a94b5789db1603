//! Images in memory, and the buffers that they are read into.
ghost use Rattle.std.specs.Prelude.{◌≡◌, ◌≤◌, ◌*◌, ◌+◌, ◌<◌, IfOk};
ghost use Rattle.lw_pool.specs.Sizes.{size_of};
ghost use Rattle.lw_pool.specs.declared.class.Class.TheVariants as class;

use lw_base::NoMemory;
use lw_image::Image;
use lw_pool::{Buffer, Class, pool};
use std::alloc::Global;
use std::sync::Wait;
use std::test::Fail;

/// A buffer of each class.
#[derive(Drop)]
struct Buffers {
    small: Buffer,
    large: Buffer,
}

fn new_buffers<R: Wait>(rt: &R, alloc: Global) -> Result<Buffers, NoMemory>
    ensures { IfOk result (λ b. (b.small.class ≡ class.Small) × (b.large.class ≡ class.Large)) }
{
    let mut passes = pool(rt, alloc, 1, 1, 1)?;
    let mut pass = passes.pop().unwrap();
    let Ok(small) = pass.take(rt, Class::Small) else {
        unreachable!()
    };
    let Ok(large) = pass.take(rt, Class::Large) else {
        unreachable!()
    };
    Ok(Buffers { small, large })
}

#[test]
fn a_pattern_starts_at_the_range_and_is_cut_at_its_end(rt: HostRuntime) -> Result<(), Fail> {
    let alloc = rt.alloc();
    let mut image = Image::zero(alloc, 4, 16)?;
    image.write(1, 2, &[1, 2, 3]);
    let mut into = new_buffers(&rt, alloc)?.small;
    image.read_into(2, 1, &mut into);
    assert!(rt; into.filled() == [2, 3, 1, 2, 3, 1, 2, 3, 1, 2, 3, 1, 2, 3, 1, 2].as_slice());
    image.read_into(3, 1, &mut into);
    assert!(rt; into.filled() == [0; 16].as_slice());
    assert_eq!(rt; image.flush(), 1);
    Ok(())
}

#[test]
fn a_read_changes_no_byte_behind_its_range(rt: HostRuntime) -> Result<(), Fail> {
    let alloc = rt.alloc();
    let mut image = Image::zero(alloc, 4, 2)?;
    image.write(0, 4, &[7]);
    let mut into = new_buffers(&rt, alloc)?.small;
    into.room(5).copy_from_slice(&[1, 2, 3, 4, 5]);
    image.read_into(1, 1, &mut into);
    assert!(rt; into.filled() == [7, 7].as_slice());
    assert!(rt; *into.room(5) == *[7, 7, 3, 4, 5].as_slice());
    Ok(())
}

// An image of 131,072 blocks of one byte, which count from 0 to 6 over and over.
fn counting_image(alloc: Global) -> Result<Image, NoMemory>
    ensures { IfOk result (λ i. (i.block ≡ 1) × (i.blocks ≡ 131072)) }
{
    let mut image = Image::zero(alloc, 131_072, 1)?;
    image.write(0, 131_072, &[0, 1, 2, 3, 4, 5, 6]);
    Ok(image)
}

// Whether so many bytes from `start` on, each the image's, are read into this buffer.
fn reads(image: &Image, start: u64, count: u64, into: &mut Buffer) -> bool
    requires image { (image.now.block ≡ 1) × (image.now.blocks ≡ 131072) }
    requires range { (1 ≤ count) × (start + count ≤ 131072) }
    requires fits { count ≤ size_of into.old.class }
    ensures { into.new.class ≡ into.old.class }
{
    image.read_into(start, count, into);
    let bytes = into.filled();
    let mut next = start;
    for byte in bytes {
        if u64::from(*byte) != next % 7 {
            return false;
        }
        next = next.saturating_add(1);
    }
    bytes.len() as u64 == count
}

// Whether so many bytes are read at the image's front and at its end.
fn reads_at_both_ends(image: &Image, count: u64, into: &mut Buffer) -> bool
    requires image { (image.now.block ≡ 1) × (image.now.blocks ≡ 131072) }
    requires count { (1 ≤ count) × (count ≤ 131072) }
    requires fits { count ≤ size_of into.old.class }
    ensures { into.new.class ≡ into.old.class }
{
    reads(image, 0, count, into) && reads(image, 131_072 - count, count, into)
}

#[test]
fn a_read_of_1_to_8_192_bytes_fills_a_small_buffer(rt: HostRuntime) -> Result<(), Fail> {
    let image = counting_image(rt.alloc())?;
    let mut small = new_buffers(&rt, rt.alloc())?.small;
    assert!(rt; reads_at_both_ends(&image, 1, &mut small));
    assert!(rt; reads_at_both_ends(&image, 512, &mut small));
    assert!(rt; reads_at_both_ends(&image, 8_191, &mut small));
    assert!(rt; reads_at_both_ends(&image, 8_192, &mut small));
    Ok(())
}

#[test]
fn a_read_of_1_to_131_072_bytes_fills_a_large_buffer(rt: HostRuntime) -> Result<(), Fail> {
    let image = counting_image(rt.alloc())?;
    let mut large = new_buffers(&rt, rt.alloc())?.large;
    assert!(rt; reads_at_both_ends(&image, 1, &mut large));
    assert!(rt; reads_at_both_ends(&image, 8_193, &mut large));
    assert!(rt; reads_at_both_ends(&image, 131_071, &mut large));
    assert!(rt; reads_at_both_ends(&image, 131_072, &mut large));
    Ok(())
}
