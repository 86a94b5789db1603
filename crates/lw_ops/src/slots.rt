//! A list of a fixed length.
ghost use Rattle.std.specs.Prelude.{◌≡◌, ◌<◌, length, slice_index_or, slice_set};

use std::marker::Model;

/// So many values, each by its place. Contracts see a list.
#[derive(Drop)]
pub struct Slots<T> {
    inner: Vec<T>,
}

impl<T> Model for Slots<T> {
    ghost use Rattle.std.specs.Prelude.{List};

    ghost Value = { List T };

    ghost view = { λ a. a.inner.items };
}

impl<T: Copy> Slots<T> {
    /// The values of a `Vec`.
    pub fn from_vec(inner: Vec<T>) -> Self
        ensures { result ≡ inner.items }
    {
        Slots { inner }
    }

    /// How many places there are.
    pub fn len(&self) -> usize
        ensures { result ≡ length self.now }
    {
        self.inner.len()
    }

    /// The value at a place.
    pub fn at(&self, place: usize) -> T
        requires { place < length self.now }
        ensures { (d : T) → slice_index_or self.now place d ≡ result }
    {
        self.inner[place]
    }

    /// Puts another value at a place.
    pub fn put(&mut self, place: usize, value: T)
        requires { place < length self.old }
        ensures { self.new ≡ slice_set self.old place value }
    {
        self.inner[place] = value;
    }
}
