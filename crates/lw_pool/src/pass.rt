//! A user's pass: buffers are taken and given back by it.
ghost use Rattle.std.specs.Prelude.{◌≡◌, ◌+◌, ◌-◌, ◌<◌, ◌≤◌, IfOk, IfErr, OnOk};
ghost use Rattle.crossbeam_queue.specs.Passes.{view, IsPassOf, IsSamePass, ruled_capacity};
ghost use Rattle.lw_pool.specs.Sizes.{size_of, most_users};
ghost use Rattle.lw_pool.specs.PoolRule.{lent};
ghost use Rattle.lw_pool.specs.PoolEnds.{IsOf, queue_of, count_of, given_of, taken_of, lent_of, with_taken, with_given};

use crate::buffer::Buffer;
use crate::class::Class;
use crate::queue::{Giving, Kind, LargeKind, Pass, Queue, SmallKind, Taking};
use std::alloc::Global;
use std::marker::Model;
use std::snapshot::Snapshot;
use std::sync::{Arc, Wait};
use thiserror::Error;

/// No buffer of the class waited in the pool.
#[derive(Clone, Copy, PartialEq, Eq, Debug, Error)]
#[error("no buffer of this class waits in the pool")]
pub struct Empty;

/// The queues of free buffers that all passes share.
#[derive(Drop)]
pub struct Shared {
    pub(crate) small: Queue<SmallKind>,
    pub(crate) large: Queue<LargeKind>,
    pub(crate) users: u32,
}

/// The pass of one user of a pool.
#[derive(Drop)]
pub struct PoolPass {
    pub(crate) shared: Arc<Shared, Global>,
    pub(crate) small: Pass,
    pub(crate) large: Pass,
    pub(crate) number: u32,
}

impl Model for PoolPass {
    ghost use Rattle.std.specs.Prelude.{◌<◌, ◌≤◌};
    ghost use Rattle.std.specs.Arc.{arc_value};
    ghost use Rattle.crossbeam_queue.specs.Passes.{view as known, IsPassOf, ruled_capacity};
    ghost use Rattle.lw_pool.specs.Sizes.{most_users, most_buffers};
    ghost use Rattle.lw_pool.specs.PoolEnds.{PoolEnd, IsUser, tally};

    ghost Value = { PoolEnd };

    ghost view = { λ p. record {
      pool = record {
        small = (arc_value p.shared).small.table.shared.table_id;
        large = (arc_value p.shared).large.table.shared.table_id;
        small_count = ruled_capacity (arc_value p.shared).small;
        large_count = ruled_capacity (arc_value p.shared).large;
        users = (arc_value p.shared).users;
      };
      number = p.number;
      small = tally (known p.small);
      large = tally (known p.large);
    } };

    ghost invariant = { λ p.
        IsPassOf (arc_value p.shared).small p.small
        × IsPassOf (arc_value p.shared).large p.large
        × IsUser (arc_value p.shared).users (ruled_capacity (arc_value p.shared).small) p.number (known p.small)
        × IsUser (arc_value p.shared).users (ruled_capacity (arc_value p.shared).large) p.number (known p.large)
        × (p.number < (arc_value p.shared).users)
        × ((arc_value p.shared).users ≤ most_users)
        × (ruled_capacity (arc_value p.shared).small ≤ most_buffers)
        × (ruled_capacity (arc_value p.shared).large ≤ most_buffers) };
}

impl PoolPass {
    /// The pass's number among those of its pool, from 0.
    pub fn number(&self) -> u32
        ensures { result ≡ self.now.number }
    {
        self.number
    }

    /// Takes a buffer of a class, with nothing filled. It is lent by this pass until it is given back. It takes no memory.
    ///
    /// It is `Empty` only where that class was empty at this call's own step. So a pool's only pass finds it empty exactly
    /// where it has all buffers of the class out; where a pool has more passes, no clause can say it.
    pub fn take<R: Wait>(&mut self, rt: &R, class: Class) -> Result<Buffer, Empty>
        ensures buffer { IfOk result (λ b.
            (b.queue ≡ queue_of class self.old.pool) × (b.class ≡ class) × (b.filled ≡ 0)) }
        ensures lent { OnOk result (self.new ≡ with_taken class self.old) }
        ensures room { OnOk result (lent_of class self.old < count_of class self.old.pool) }
        ensures same { IfErr result (λ _. self.new ≡ self.old) }
        ensures alone { IfErr result (λ _. self.old.pool.users ≡ 1 →
            lent_of class self.old ≡ count_of class self.old.pool) }
    {
        match class {
            Class::Small => draw(rt, &self.shared.small, &mut self.small, class),
            Class::Large => draw(rt, &self.shared.large, &mut self.large, class),
        }
    }

    /// Gives back a buffer of this pass's pool. It is never refused, and takes no memory.
    ///
    /// The pass has taken more buffers of that class than it has given back.
    pub fn give_back<R: Wait>(&mut self, rt: &R, buffer: Buffer)
        requires pool { IsOf self.old.pool buffer }
        requires lent { given_of buffer.class self.old < taken_of buffer.class self.old }
        ensures { self.new ≡ with_given buffer.class self.old }
    {
        match buffer.class {
            Class::Small => put(rt, &self.shared.small, &mut self.small, buffer),
            Class::Large => put(rt, &self.shared.large, &mut self.large, buffer),
        }
    }
}

// The buffer that has waited longest.
fn draw<K: Kind, R: Wait>(
    rt: &R,
    queue: &Queue<K>,
    pass: &mut Pass,
    class: Class,
) -> Result<Buffer, Empty>
    requires queue { IsPassOf queue.now pass.old }
    requires user { 1 ≤ (view pass.old).parts }
    requires class { size_of class ≡ K.size }
    ensures queue { IsSamePass pass.old pass.new }
    ensures buffer { IfOk result (λ b.
        (b.queue ≡ queue.now.table.shared.table_id) × (b.class ≡ class) × (b.filled ≡ 0)) }
    ensures taken { OnOk result
        ((view pass.new ≡ record (view pass.old) { taken = (view pass.old).taken + 1 })
        × (lent (view pass.old) < (view pass.old).count)) }
    ensures empty { IfErr result (λ _.
        (view pass.new ≡ view pass.old)
        × ((view pass.old).parts ≡ most_users → lent (view pass.old) ≡ (view pass.old).count)) }
{
    match queue.pop_as::<Taking<K>, R>(rt, pass) {
        Some(bytes) => Ok(Buffer {
            bytes,
            filled: 0,
            class,
            mark: Snapshot::of(pass),
        }),
        None => Err(Empty),
    }
}

// The buffer waits again, behind the others.
fn put<K: Kind, R: Wait>(rt: &R, queue: &Queue<K>, pass: &mut Pass, buffer: Buffer)
    requires queue { IsPassOf queue.now pass.old }
    requires user { 1 ≤ (view pass.old).parts }
    requires class { size_of buffer.class ≡ K.size }
    requires count { (view pass.old).count ≡ ruled_capacity queue.now }
    requires lent { (view pass.old).given < (view pass.old).taken }
    ensures queue { IsSamePass pass.old pass.new }
    ensures given { view pass.new ≡ record (view pass.old) { given = (view pass.old).given + 1 } }
{
    let Buffer {
        bytes,
        filled: _,
        class: _,
        mark: _,
    } = buffer;
    if queue.push_as::<Giving, R>(rt, pass, bytes).is_err() {
        unreachable!();
    }
}
