//! How a pool is made.
ghost use Rattle.std.specs.Prelude.{◌≡◌, ◌+◌, ◌-◌, ◌<◌, ◌≤◌, length, IfOk};
ghost use Rattle.std.specs.Arc.{arc_value};
ghost use Rattle.crossbeam_queue.specs.Passes.{view, IsPassOf, ruled_capacity};
ghost use Rattle.lw_pool.specs.Sizes.{most_users, most_buffers};
ghost use Rattle.lw_pool.specs.PoolRule.{new_view, less_one_part};
ghost use Rattle.lw_pool.specs.PoolEnds.{AreNew, new_pass};

use crate::class::{LARGE_BYTES, SMALL_BYTES};
use crate::pass::{PoolPass, Shared};
use crate::queue::{Dealing, Kind, LargeKind, Pass, Queue, SmallKind, Stocking};
use lw_base::NoMemory;
use std::alloc::Global;
use std::sync::{Arc, Wait};

/// A new pool of `small` buffers of 8,192 bytes and `large` ones of 135,168, for `users` passes, numbered from 0.
///
/// There are 1 to 1,024 buffers of each class and 1 to 127 passes. All memory of the pool is taken here.
pub fn pool<R: Wait>(
    rt: &R,
    alloc: Global,
    small: u32,
    large: u32,
    users: u32,
) -> Result<Vec<PoolPass>, NoMemory>
    requires small { (1 ≤ small) × (small ≤ most_buffers) }
    requires large { (1 ≤ large) × (large ≤ most_buffers) }
    requires users { (1 ≤ users) × (users ≤ most_users) }
    ensures { IfOk result (λ ps. AreNew small large users ps.items) }
{
    let Stocked {
        queue: small,
        pass: mut small_pass,
    } = stock::<SmallKind, R>(rt, alloc, SMALL_BYTES, small as usize)?;
    let Stocked {
        queue: large,
        pass: mut large_pass,
    } = stock::<LargeKind, R>(rt, alloc, LARGE_BYTES, large as usize)?;
    let shared = Shared {
        small,
        large,
        users,
    };
    let shared = Arc::new(alloc, shared)?;
    let mut passes = Vec::new(alloc);
    for number in 0..users - 1 {
        passes.push(deal(&shared, &mut small_pass, &mut large_pass, number)?)?;
    }
    passes.push(PoolPass {
        shared,
        small: small_pass,
        large: large_pass,
        number: users - 1,
    })?;
    Ok(passes)
}

// A queue with all its buffers, and the pass that stands for all.
#[derive(Drop)]
struct Stocked<K: Kind> {
    queue: Queue<K>,
    pass: Pass,
}

// A queue with `count` buffers of `size` bytes.
fn stock<K: Kind, R: Wait>(
    rt: &R,
    alloc: Global,
    size: usize,
    count: usize,
) -> Result<Stocked<K>, NoMemory>
    requires size { size ≡ K.size }
    requires count { 1 ≤ count }
    ensures queue { IfOk result (λ s. IsPassOf s.queue s.pass × (ruled_capacity s.queue ≡ count)) }
    ensures all { IfOk result (λ s. view s.pass ≡ new_view most_users count) }
{
    let (queue, mut pass) = Queue::<K>::ruled(alloc, count)?;
    for _ in 0..count {
        let bytes = Vec::from_elem(alloc, 0u8, size)?;
        if queue.push_as::<Stocking, R>(rt, &mut pass, bytes).is_err() {
            unreachable!();
        }
    }
    Ok(Stocked { queue, pass })
}

// One more pass, which is not the last.
fn deal(
    shared: &Arc<Shared, Global>,
    small: &mut Pass,
    large: &mut Pass,
    number: u32,
) -> Result<PoolPass, NoMemory>
    requires small { IsPassOf (arc_value shared.now).small small.old
        × (view small.old ≡ new_view (most_users - number) (ruled_capacity (arc_value shared.now).small)) }
    requires large { IsPassOf (arc_value shared.now).large large.old
        × (view large.old ≡ new_view (most_users - number) (ruled_capacity (arc_value shared.now).large)) }
    requires counts { (ruled_capacity (arc_value shared.now).small ≤ most_buffers)
        × (ruled_capacity (arc_value shared.now).large ≤ most_buffers) }
    requires number { number + 1 < (arc_value shared.now).users }
    requires users { (arc_value shared.now).users ≤ most_users }
    ensures small { IfOk result (λ _. IsPassOf (arc_value shared.now).small small.new
        × (view small.new ≡ less_one_part (view small.old))) }
    ensures large { IfOk result (λ _. IsPassOf (arc_value shared.now).large large.new
        × (view large.new ≡ less_one_part (view large.old))) }
    ensures pass { IfOk result (λ p. p ≡ new_pass (record {
      small = (arc_value shared.now).small.table.shared.table_id;
      large = (arc_value shared.now).large.table.shared.table_id;
      small_count = ruled_capacity (arc_value shared.now).small;
      large_count = ruled_capacity (arc_value shared.now).large;
      users = (arc_value shared.now).users;
    }) number) }
{
    Ok(PoolPass {
        shared: Arc::try_clone(shared)?,
        small: shared.small.another::<Dealing>(small),
        large: shared.large.another::<Dealing>(large),
        number,
    })
}
