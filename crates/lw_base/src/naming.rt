//! How a ring's maker names the ring for the contracts.
use std::marker::Brand;

/// The number of the receiver that a ring is made for, and the family of its messages.
///
/// Both exist for contracts only. A call that makes a ring takes the family by a `ghost` clause, and hands both on to
/// the types that need them by a `Brand` of its own.
pub trait Naming<F> {
    ghost use Rattle.std.specs.Prelude.{ℕ, Option};

    ghost number: { ℕ };

    ghost family: { Option F };
}

impl<F> Naming<F> for Brand {
    ghost use Rattle.std.specs.Prelude.{None};

    ghost number = { 0 };

    ghost family = { None };
}
