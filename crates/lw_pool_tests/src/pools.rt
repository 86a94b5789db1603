//! The pool of read buffers.
ghost use Rattle.std.specs.Prelude.{◌≡◌, ℕ, ◌+◌, ◌<◌, ◌≤◌, length, slice_index_or, IfOk, IfSome};
ghost use Rattle.std.specs.Bool.{OnTrue};
ghost use Rattle.lw_pool.specs.Sizes.{size_of};
ghost use Rattle.lw_pool.specs.PoolEnds.{PoolEnd, IsEven, filled_bytes, new_pass, with_taken, queue_of};
ghost use Rattle.lw_pool.specs.declared.class.Class.TheVariants as class;
ghost use Rattle.lw_pool_tests.specs.Pools.{AreFour, IsBack, IsNew};

use lw_base::NoMemory;
use lw_pool::{Buffer, Class, Empty, Home, PoolPass, pool, settle_pool};
use std::alloc::Global;
use std::sync::Wait;
use std::test::Fail;
use std::thread;
use std::thread::Threads;

/// How often each thread of the storm takes a buffer and gives it back.
const ROUNDS: u32 = 1_000;

/// How often a thread of the storm tries for a buffer before it gives up.
const TRIES: u32 = 100_000_000;

// The one pass of a pool of one small buffer and one large one.
fn pass_of_one<R: Wait>(rt: &R, alloc: Global) -> Result<PoolPass, NoMemory>
    ensures new { IfOk result (λ p. p ≡ new_pass p.pool 0) }
    ensures users { IfOk result (λ p. p.pool.users ≡ 1) }
{
    let mut passes = pool(rt, alloc, 1, 1, 1)?;
    Ok(passes.pop().unwrap())
}

// Settles a pool of one pass.
fn settle_one<R: Wait>(rt: &R, alloc: Global, pass: PoolPass) -> Result<Home, NoMemory>
    requires { (pass.pool.users ≡ 1) × (pass.number ≡ 0) × IsEven pass }
{
    let mut passes = Vec::new(alloc);
    passes.push(pass)?;
    Ok(settle_pool(rt, passes))
}

// Fills a buffer with these bytes.
fn fill(buffer: &mut Buffer, bytes: &[u8])
    requires { length bytes.now ≤ size_of buffer.old.class }
    ensures filled { filled_bytes buffer.new ≡ bytes.now }
    ensures same { (buffer.new.queue ≡ buffer.old.queue) × (buffer.new.class ≡ buffer.old.class) }
{
    buffer.room(bytes.len()).copy_from_slice(bytes);
}

#[test]
fn the_largest_count_of_small_buffers_and_passes_is_made(rt: HostRuntime) -> Result<(), Fail> {
    let mut passes = pool(&rt, rt.alloc(), 1_024, 2, 127)?;
    assert!(rt; passes.len() == 127 && passes.pop().unwrap().number() == 126);
    Ok(())
}

#[test]
fn a_pool_of_one_small_buffer_gives_it_once_and_takes_it_back(rt: HostRuntime) -> Result<(), Fail> {
    let mut pass = pass_of_one(&rt, rt.alloc())?;
    let Ok(mut buffer) = pass.take(&rt, Class::Small) else {
        panic!(rt; "the first take found none")
    };
    assert!(rt; pass.number() == 0 && buffer.class() == Class::Small && buffer.filled().is_empty());
    assert!(rt; pass.take(&rt, Class::Small).err() == Some(Empty));
    fill(&mut buffer, b"once");
    assert!(rt; buffer.filled() == b"once".as_slice());
    pass.give_back(&rt, buffer);
    let home = settle_one(&rt, rt.alloc(), pass)?;
    assert!(rt; home == Home { small: 1, large: 1 });
    Ok(())
}

#[test]
fn a_large_buffer_lends_as_many_bytes_as_are_asked_for(rt: HostRuntime) -> Result<(), Fail> {
    let mut pass = pass_of_one(&rt, rt.alloc())?;
    let Ok(mut buffer) = pass.take(&rt, Class::Large) else {
        panic!(rt; "the first take found none")
    };
    assert!(rt; buffer.class() == Class::Large && buffer.room(135_168).len() == 135_168);
    fill(&mut buffer, b"abc");
    assert!(rt; *buffer.room(2) == *b"ab".as_slice() && buffer.filled() == b"ab".as_slice());
    assert!(rt; buffer.room(0).is_empty() && buffer.filled().is_empty());
    assert!(rt; *buffer.room(3) == *b"abc".as_slice());
    Ok(())
}

// Takes a small buffer, and tries again while there is none.
fn take_one<R: Wait>(rt: &R, pass: &mut PoolPass) -> Option<Buffer>
    ensures lent { IfSome result (λ b. pass.new ≡ with_taken class.Small pass.old) }
    ensures buffer { IfSome result (λ b. (b.queue ≡ queue_of class.Small pass.old.pool) × (b.class ≡ class.Small)) }
{
    for _ in 0..TRIES {
        if let Ok(buffer) = pass.take(rt, Class::Small) {
            return Some(buffer);
        }
        thread::yield_now();
    }
    None
}

// Takes a small buffer and gives it back, round by round.
fn take_and_give_back<R: Wait>(rt: &R, mut pass: PoolPass) -> Option<PoolPass>
    requires { IsNew pass }
    ensures { IfSome result (IsBack pass) }
{
    for _ in 0..ROUNDS {
        let buffer = take_one(rt, &mut pass)?;
        pass.give_back(rt, buffer);
    }
    Some(pass)
}

/// Two passes of one pool.
#[derive(Drop)]
struct Two {
    a: PoolPass,
    b: PoolPass,
}

// Two machine threads that take and give back, each with a pass of its own.
fn side_by_side<R: Threads + Wait + Sync>(rt: &R, passes: Two) -> Option<Two>
    requires { IsNew passes.a × IsNew passes.b }
    ensures { IfSome result (λ t. IsBack passes.a t.a × IsBack passes.b t.b) }
{
    let Two { a, b } = passes;
    let (a, b) = thread::join(
        rt,
        move || -> Option<PoolPass>
            requires { IsNew a }
            ensures { IfSome result (IsBack a) }
        { take_and_give_back(rt, a) },
        move || -> Option<PoolPass>
            requires { IsNew b }
            ensures { IfSome result (IsBack b) }
        { take_and_give_back(rt, b) },
    );
    Some(Two { a: a?, b: b? })
}

// Fills a buffer on a machine thread of its own, and has it back.
fn fill_elsewhere<R: Threads + Sync>(rt: &R, buffer: Buffer, byte: u8) -> Buffer
    requires { buffer.class ≡ class.Small }
    ensures { (result.queue ≡ buffer.queue) × (result.class ≡ buffer.class) }
{
    let (buffer, _) = thread::join(
        rt,
        move || -> Buffer
            requires { buffer.class ≡ class.Small }
            ensures { (result.queue ≡ buffer.queue) × (result.class ≡ buffer.class) }
        { filled_with(buffer, byte) },
        || (),
    );
    buffer
}

// A small buffer with 100 of this byte.
fn filled_with(mut buffer: Buffer, byte: u8) -> Buffer
    requires { buffer.class ≡ class.Small }
    ensures { (result.queue ≡ buffer.queue) × (result.class ≡ buffer.class) }
{
    buffer.room(100).fill(byte);
    buffer
}

#[test]
fn a_buffer_is_filled_by_another_machine_thread(rt: HostRuntime) -> Result<(), Fail> {
    let mut pass = pass_of_one(&rt, rt.alloc())?;
    let Ok(buffer) = pass.take(&rt, Class::Small) else {
        panic!(rt; "the first take found none")
    };
    let buffer = fill_elsewhere(&rt, buffer, 7);
    assert!(rt; buffer.filled() == [7; 100].as_slice());
    pass.give_back(&rt, buffer);
    let home = settle_one(&rt, rt.alloc(), pass)?;
    assert!(rt; home == Home { small: 1, large: 1 });
    Ok(())
}

// The passes of a pool of two buffers of each class.
fn two_passes<R: Wait>(rt: &R, alloc: Global) -> Result<Two, NoMemory>
    ensures new { IfOk result (λ t. (t.a ≡ new_pass t.a.pool 0) × (t.b ≡ new_pass t.a.pool 1)) }
    ensures users { IfOk result (λ t. t.a.pool.users ≡ 2) }
{
    let mut passes = pool(rt, alloc, 2, 2, 2)?;
    let b = passes.pop().unwrap();
    let a = passes.pop().unwrap();
    Ok(Two { a, b })
}

// Settles a pool of two passes.
fn settle_two<R: Wait>(rt: &R, alloc: Global, passes: Two) -> Result<Home, NoMemory>
    requires pool { (passes.a.pool.users ≡ 2) × (passes.b.pool ≡ passes.a.pool) }
    requires numbers { (passes.a.number ≡ 0) × (passes.b.number ≡ 1) }
    requires even { IsEven passes.a × IsEven passes.b }
{
    let Two { a, b } = passes;
    let mut all = Vec::new(alloc);
    all.push(a)?;
    all.push(b)?;
    Ok(settle_pool(rt, all))
}

// One pass takes both buffers of a class, another finds none, and gets the one that is given back. Whether it was so.
fn gets_what_is_given_back<R: Wait>(rt: &R, a: &mut PoolPass, b: &mut PoolPass, of: Class) -> bool
    requires pool { b.old.pool ≡ a.old.pool }
    requires even { IsEven a.old × IsEven b.old }
    requires few { (a.old.small.given ≤ 8) × (a.old.large.given ≤ 8) × (b.old.small.given ≤ 8) × (b.old.large.given ≤ 8) }
    ensures same { (a.new.pool ≡ a.old.pool) × (a.new.number ≡ a.old.number)
        × (b.new.pool ≡ b.old.pool) × (b.new.number ≡ b.old.number) }
    ensures even { OnTrue result (IsEven a.new × IsEven b.new) }
    ensures few { (a.new.small.given ≤ a.old.small.given + 2) × (a.new.large.given ≤ a.old.large.given + 2)
        × (b.new.small.given ≤ b.old.small.given + 2) × (b.new.large.given ≤ b.old.large.given + 2) }
{
    let Ok(first) = a.take(rt, of) else {
        return false;
    };
    let Ok(second) = a.take(rt, of) else {
        return false;
    };
    if b.take(rt, of).is_ok() {
        return false;
    }
    a.give_back(rt, first);
    let Ok(third) = b.take(rt, of) else {
        return false;
    };
    a.give_back(rt, second);
    b.give_back(rt, third);
    true
}

#[test]
fn what_one_pass_gives_back_another_gets(rt: HostRuntime) -> Result<(), Fail> {
    let Two { mut a, mut b } = two_passes(&rt, rt.alloc())?;
    if !gets_what_is_given_back(&rt, &mut a, &mut b, Class::Small) {
        panic!(rt; "of the small buffers")
    }
    if !gets_what_is_given_back(&rt, &mut a, &mut b, Class::Large) {
        panic!(rt; "of the large buffers")
    }
    let home = settle_two(&rt, rt.alloc(), Two { a, b })?;
    assert!(rt; home == Home { small: 2, large: 2 });
    Ok(())
}

/// The passes of a pool of four.
#[derive(Drop)]
struct Four {
    firsts: Two,
    lasts: Two,
}

// The passes of a pool of one small buffer and one large one.
fn four_passes<R: Wait>(rt: &R, alloc: Global) -> Result<Four, NoMemory>
    ensures four { IfOk result (λ f. AreFour f.firsts.a f.firsts.b f.lasts.a f.lasts.b) }
    ensures new { IfOk result (λ f. IsNew f.firsts.a × IsNew f.firsts.b × IsNew f.lasts.a × IsNew f.lasts.b) }
{
    let mut passes = pool(rt, alloc, 1, 1, 4)?;
    let lasts = last_two(&mut passes);
    let firsts = last_two(&mut passes);
    Ok(Four { firsts, lasts })
}

// The last two of some passes, which are taken out.
fn last_two(passes: &mut Vec<PoolPass>) -> Two
    requires { 2 ≤ length passes.old.items }
    ensures count { length passes.new.items + 2 ≡ length passes.old.items }
    ensures rest { (k : ℕ) (d : PoolEnd) → k < length passes.new.items
        → slice_index_or passes.new.items k d ≡ slice_index_or passes.old.items k d }
    ensures first { slice_index_or passes.old.items (length passes.new.items) result.a ≡ result.a }
    ensures second { slice_index_or passes.old.items (length passes.new.items + 1) result.b ≡ result.b }
{
    let b = passes.pop().unwrap();
    let a = passes.pop().unwrap();
    Two { a, b }
}

// Four machine threads that take and give back.
fn storm<R: Threads + Wait + Sync>(rt: &R, passes: Four) -> Option<Four>
    requires four { AreFour passes.firsts.a passes.firsts.b passes.lasts.a passes.lasts.b }
    requires new { IsNew passes.firsts.a × IsNew passes.firsts.b × IsNew passes.lasts.a × IsNew passes.lasts.b }
    ensures four { IfSome result (λ f. AreFour f.firsts.a f.firsts.b f.lasts.a f.lasts.b) }
    ensures even { IfSome result (λ f. IsEven f.firsts.a × IsEven f.firsts.b × IsEven f.lasts.a × IsEven f.lasts.b) }
{
    let Four { firsts, lasts } = passes;
    let (firsts, lasts) = thread::join(
        rt,
        move || -> Option<Two>
            requires { IsNew firsts.a × IsNew firsts.b }
            ensures { IfSome result (λ t. IsBack firsts.a t.a × IsBack firsts.b t.b) }
        { side_by_side(rt, firsts) },
        move || -> Option<Two>
            requires { IsNew lasts.a × IsNew lasts.b }
            ensures { IfSome result (λ t. IsBack lasts.a t.a × IsBack lasts.b t.b) }
        { side_by_side(rt, lasts) },
    );
    Some(Four {
        firsts: firsts?,
        lasts: lasts?,
    })
}

// Settles a pool of four passes.
fn settle_four<R: Wait>(rt: &R, alloc: Global, passes: Four) -> Result<Home, NoMemory>
    requires four { AreFour passes.firsts.a passes.firsts.b passes.lasts.a passes.lasts.b }
    requires even { IsEven passes.firsts.a × IsEven passes.firsts.b × IsEven passes.lasts.a × IsEven passes.lasts.b }
{
    let Four { firsts, lasts } = passes;
    let mut all = Vec::new(alloc);
    all.push(firsts.a)?;
    all.push(firsts.b)?;
    all.push(lasts.a)?;
    all.push(lasts.b)?;
    Ok(settle_pool(rt, all))
}

#[test]
fn four_machine_threads_share_one_small_buffer(rt: HostRuntime) -> Result<(), Fail> {
    let passes = four_passes(&rt, rt.alloc())?;
    let Some(passes) = storm(&rt, passes) else {
        panic!(rt; "a thread found no buffer")
    };
    let home = settle_four(&rt, rt.alloc(), passes)?;
    assert!(rt; home == Home { small: 1, large: 1 });
    Ok(())
}
