//! The rule of a queue of free buffers: what each pass knows, and what each kind of step tells the pass that makes it.
ghost use Rattle.std.specs.Prelude.{ℕ};

use crossbeam_queue::RuledArrayQueue;
use crossbeam_queue::protocol::{Join, Lesson, Outcome, Protocol, Split};
use std::alloc::Global;
use std::marker::PhantomData;

/// What a pass of the queue knows. Contracts alone see it.
pub struct PoolView {
    /// For how many of 127 parts it stands. A pass that stands for all knows that no other has a buffer out.
    pub parts: u64,
    /// How many buffers of the class the pool has.
    pub count: u64,
    /// How many buffers it has taken.
    pub taken: u64,
    /// How many it has given back.
    pub given: u64,
}

/// A class of buffers, as a type.
pub trait Kind {
    ghost size: { ℕ };
}

/// The class of 8,192 bytes.
pub struct SmallKind;

impl Kind for SmallKind {
    ghost size = { 8192 };
}

/// The class of 135,168 bytes.
pub struct LargeKind;

impl Kind for LargeKind {
    ghost size = { 135168 };
}

/// The rule that ties the buffers that wait to what the passes know.
pub struct Rule<K> {
    of: PhantomData<K>,
}

impl<K: Kind> Protocol<Vec<u8>, PoolView> for Rule<K> {
    ghost use Rattle.lw_pool.specs.PoolRule.{Kept, first_view};

    ghost holds = { Kept K.size };

    ghost first = { first_view };
}

/// A buffer is put in while the pool is made.
pub struct Stocking;

impl Outcome<Vec<u8>, PoolView> for Stocking {
    ghost use Rattle.lw_pool.specs.PoolRule.{Stocks};

    ghost then = { Stocks };
}

impl Lesson<Vec<u8>, PoolView> for Stocking {
    ghost use Rattle.lw_pool.specs.PoolRule.{Counts};

    ghost fact = { Counts };
}

/// A buffer is taken.
pub struct Taking<K> {
    of: PhantomData<K>,
}

impl<K: Kind> Outcome<Vec<u8>, PoolView> for Taking<K> {
    ghost use Rattle.lw_pool.specs.PoolRule.{Takes};

    ghost then = { Takes K.size };
}

impl<K: Kind> Lesson<Vec<u8>, PoolView> for Taking<K> {
    ghost use Rattle.lw_pool.specs.PoolRule.{Counts};

    ghost fact = { Counts };
}

/// A buffer is given back.
pub struct Giving;

impl Outcome<Vec<u8>, PoolView> for Giving {
    ghost use Rattle.lw_pool.specs.PoolRule.{Gives};

    ghost then = { Gives };
}

impl Lesson<Vec<u8>, PoolView> for Giving {
    ghost use Rattle.lw_pool.specs.PoolRule.{Counts};

    ghost fact = { Counts };
}

/// The buffers that wait are counted.
pub struct Counting;

impl Lesson<Vec<u8>, PoolView> for Counting {
    ghost use Rattle.lw_pool.specs.PoolRule.{Counts};

    ghost fact = { Counts };
}

/// One more pass is split off when the pool is made, and passes are joined when it is settled.
pub struct Dealing;

impl Split<PoolView> for Dealing {
    ghost use Rattle.lw_pool.specs.PoolRule.{less_one_part, one_part};

    ghost left = { less_one_part };

    ghost right = { one_part };
}

impl Join<PoolView> for Dealing {
    ghost use Rattle.lw_pool.specs.PoolRule.{joined, idle};

    ghost both = { joined };

    ghost spent = { idle };
}

/// The free buffers of a class.
pub type Queue<K> = RuledArrayQueue<Vec<u8>, PoolView, Rule<K>, Global>;

/// What one user knows of such a queue.
pub type Pass = crossbeam_queue::Pass<Vec<u8>, PoolView>;
