//! The rule of a ring's queue: what each pass knows, and what each kind of step tells the pass that makes it. Nothing here is
//! for callers.
use crate::parcel::Parcel;
use crossbeam_queue::protocol::{Join, Lesson, Outcome, Protocol, Split};
use crossbeam_queue::{RuledSegQueue, SegPass};
use lw_base::{Naming, Tagged};
use std::collections::LinkedList;
use std::marker::PhantomData;

/// What a pass of a ring's queue knows. Contracts alone see it.
pub struct PassView<L, F> {
    /// Whether it is the first pass, and the ring not yet made.
    pub fresh: bool,
    /// The ring's number, and its family.
    pub number: u64,
    pub family: Option<F>,
    /// Whether it sends, with which number, and what it sent.
    pub sends: bool,
    pub from: u64,
    pub put: LinkedList<L>,
    /// Whether it receives, how many senders were made, and what it took off the queue.
    pub gets: bool,
    pub made: u64,
    pub got: LinkedList<L>,
    /// What each of the senders that it took in had sent.
    pub known: LinkedList<LinkedList<L>>,
}

/// The rule that ties what waits to what the passes know.
pub struct Rule<T> {
    of: PhantomData<T>,
}

impl<T: Tagged> Protocol<Parcel<T>, PassView<T::Letter, T::Family>> for Rule<T> {
    ghost use Rattle.lw_ring.specs.Queue.{Delivers, fresh};

    ghost holds = { Delivers T.letter T.tag_of T.fits };

    ghost first = { fresh };
}

/// The first pass becomes the receiver's, and the ring gets its number and family. It is a split whose other half knows
/// nothing.
pub struct Founding<B> {
    of: PhantomData<B>,
}

impl<L, F, B: Naming<F>> Split<PassView<L, F>> for Founding<B> {
    ghost use Rattle.lw_ring.specs.Queue.{receiver, spent};

    ghost left = { λ _. receiver B.number B.family 0 };

    ghost right = { λ _. spent };
}

/// One more sender's pass is split off, or the next sender's is joined.
pub struct Dealing;

impl<L, F> Split<PassView<L, F>> for Dealing {
    ghost use Rattle.lw_ring.specs.Queue.{one_more, the_next};

    ghost left = { one_more };

    ghost right = { the_next };
}

impl<L, F> Join<PassView<L, F>> for Dealing {
    ghost use Rattle.lw_ring.specs.Queue.{with_sender, spent};

    ghost both = { with_sender };

    ghost spent = { spent };
}

pub struct Sending;

impl<T: Tagged> Outcome<Parcel<T>, PassView<T::Letter, T::Family>> for Sending {
    ghost use Rattle.lw_ring.specs.Queue.{Sends};

    ghost then = { Sends T.letter };
}

pub struct Taking;

impl<T: Tagged> Outcome<Parcel<T>, PassView<T::Letter, T::Family>> for Taking {
    ghost use Rattle.lw_ring.specs.Queue.{Takes};

    ghost then = { Takes T.letter T.tag_of T.fits };
}

impl<T: Tagged> Lesson<Parcel<T>, PassView<T::Letter, T::Family>> for Taking {
    ghost use Rattle.lw_ring.specs.Queue.{Saw};

    ghost fact = { Saw T.letter T.tag_of T.fits };
}

pub type Queue<T> = RuledSegQueue<
    Parcel<T>,
    PassView<<T as Tagged>::Letter, <T as Tagged>::Family>,
    Rule<T>,
>;

pub type Pass<T> = SegPass<Parcel<T>, PassView<<T as Tagged>::Letter, <T as Tagged>::Family>>;
