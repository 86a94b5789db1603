//! What stands in a ring's queue. Callers don't see it.

/// One message, or a run of them, oldest first. A run has one at least, and its vector travels with it.
#[derive(Drop)]
pub enum Parcel<T> {
    One(T),
    Run(Vec<T>),
}
