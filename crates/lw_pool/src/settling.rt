//! What is known of a pool once all its passes are in one hand.
ghost use Rattle.std.specs.Prelude.{◌≡◌, ℕ, ◌+◌, ◌<◌, ◌≤◌, length, All};
ghost use Rattle.crossbeam_queue.specs.Passes.{view, IsPassOf, ruled_capacity};
ghost use Rattle.lw_pool.specs.Sizes.{most_users, most_buffers};
ghost use Rattle.lw_pool.specs.PoolEnds.{AreAllPasses, IsEven, IsHome};

use crate::pass::{PoolPass, Shared};
use crate::queue::{Counting, Dealing, Kind, Pass, Queue};
use lw_base::Home;
use std::alloc::Global;
use std::marker::Model;
use std::sync::{Arc, Wait};

/// A pass that others were joined to.
#[derive(Drop)]
struct Whole {
    shared: Arc<Shared, Global>,
    small: Pass,
    large: Pass,
}

impl Model for Whole {
    ghost use Rattle.std.specs.Prelude.{◌≡◌, ◌≤◌};
    ghost use Rattle.std.specs.Arc.{arc_value};
    ghost use Rattle.crossbeam_queue.specs.Passes.{view as known, IsPassOf, ruled_capacity};
    ghost use Rattle.lw_pool.specs.Sizes.{most_buffers};
    ghost use Rattle.lw_pool.specs.PoolEnds.{Joined};

    ghost Value = { Joined };

    ghost view = { λ w. record {
      pool = record {
        small = (arc_value w.shared).small.table.shared.table_id;
        large = (arc_value w.shared).large.table.shared.table_id;
        small_count = ruled_capacity (arc_value w.shared).small;
        large_count = ruled_capacity (arc_value w.shared).large;
        users = (arc_value w.shared).users;
      };
      small = known w.small;
      large = known w.large;
    } };

    ghost invariant = { λ w.
        IsPassOf (arc_value w.shared).small w.small
        × IsPassOf (arc_value w.shared).large w.large
        × (1 ≤ (known w.small).parts)
        × (1 ≤ (known w.large).parts)
        × ((known w.small).count ≡ ruled_capacity (arc_value w.shared).small)
        × ((known w.large).count ≡ ruled_capacity (arc_value w.shared).large)
        × (ruled_capacity (arc_value w.shared).small ≤ most_buffers)
        × (ruled_capacity (arc_value w.shared).large ≤ most_buffers) };
}

/// Settles a pool: counts the buffers that wait. It takes no memory.
///
/// The passes are all of the pool's, in order, and each has given back as many buffers as it took, of each class. Then the
/// counts are the pool's.
pub fn settle_pool<R: Wait>(rt: &R, passes: Vec<PoolPass>) -> Home
    requires all { AreAllPasses passes.items }
    requires even { All IsEven passes.items }
    ensures small { All (λ p. result.small ≡ p.pool.small_count) passes.items }
    ensures large { All (λ p. result.large ≡ p.pool.large_count) passes.items }
{
    let Whole {
        shared,
        mut small,
        mut large,
    } = join(passes);
    Home {
        small: count(rt, &shared.small, &mut small),
        large: count(rt, &shared.large, &mut large),
    }
}

// One pass that stands for all of these.
fn join(mut passes: Vec<PoolPass>) -> Whole
    requires all { AreAllPasses passes.items }
    requires even { All IsEven passes.items }
    ensures of { All (λ p. p.pool ≡ result.pool) passes.items }
    ensures home { IsHome most_users result }
{
    let Some(last) = passes.pop() else {
        unreachable!()
    };
    let mut whole = open(last);
    for pass in passes {
        take_in(&mut whole, pass);
    }
    whole
}

// The last pass, to which the others can be joined.
fn open(last: PoolPass) -> Whole
    requires { (last.number + 1 ≡ last.pool.users) × IsEven last }
    ensures pool { result.pool ≡ last.pool }
    ensures few { last.pool.users ≤ most_users }
    ensures home { (parts : ℕ) → parts + last.pool.users ≡ most_users + 1 → IsHome parts result }
{
    let PoolPass {
        shared,
        small,
        large,
        number: _,
    } = last;
    Whole {
        shared,
        small,
        large,
    }
}

// Another pass is joined.
fn take_in(whole: &mut Whole, pass: PoolPass)
    requires { (pass.pool ≡ whole.old.pool) × (pass.number + 1 < pass.pool.users) × IsEven pass }
    ensures pool { whole.new.pool ≡ whole.old.pool }
    ensures home { (parts : ℕ) → IsHome parts whole.old → IsHome (parts + 1) whole.new }
{
    let PoolPass {
        shared: _,
        small,
        large,
        number: _,
    } = pass;
    whole
        .shared
        .small
        .absorb::<Dealing>(&mut whole.small, small);
    whole
        .shared
        .large
        .absorb::<Dealing>(&mut whole.large, large);
}

// How many buffers wait, which are all.
fn count<K: Kind, R: Wait>(rt: &R, queue: &Queue<K>, pass: &mut Pass) -> u32
    requires queue { IsPassOf queue.now pass.old }
    requires all { (view pass.old).parts ≡ most_users }
    requires even { (view pass.old).taken ≡ (view pass.old).given }
    requires few { ruled_capacity queue.now ≤ most_buffers }
    ensures { result ≡ (view pass.old).count }
{
    queue.len_as::<Counting, R>(rt, pass) as u32
}
