//! A buffer that is out of the pool.
ghost use Rattle.std.specs.Prelude.{◌≡◌, ◌≤◌, length, take};
ghost use Rattle.std.specs.Borrow.{sem};
ghost use Rattle.lw_pool.specs.Sizes.{size_of};

use crate::class::Class;
use crate::queue::Pass;
use std::marker::Model;
use std::snapshot::Snapshot;

/// A buffer of 8,192 or of 135,168 bytes. It goes back to the pool that it was taken from. The value is 32 bytes itself: the
/// vector of its bytes is 24, the filled length 4 and the class 1.
#[derive(Drop)]
pub struct Buffer {
    pub(crate) bytes: Vec<u8>,
    pub(crate) filled: u32,
    pub(crate) class: Class,
    // A pass of the buffer's queue. Contracts alone see it.
    pub(crate) mark: Snapshot<Pass>,
}

impl Model for Buffer {
    ghost use Rattle.std.specs.Prelude.{◌≡◌, ◌≤◌, length};
    ghost use Rattle.lw_pool.specs.Sizes.{size_of};
    ghost use Rattle.lw_pool.specs.PoolEnds.{BufferEnd};

    ghost Value = { BufferEnd };

    ghost view = { λ b. record {
      queue = b.mark.value.table_id;
      class = b.class;
      bytes = b.bytes.items;
      filled = b.filled;
    } };

    ghost invariant = { λ b. (length b.bytes.items ≡ size_of b.class) × (b.filled ≤ size_of b.class) };
}

impl Buffer {
    ghost use Rattle.lw_pool.specs.Lending.{LendsFilled};
    ghost use Rattle.lw_pool.specs.PoolEnds.{filled_bytes};

    /// The buffer's class.
    pub fn class(&self) -> Class
        ensures { result ≡ self.now.class }
    {
        self.class
    }

    /// Sets the filled length to `len`, at most the class's size, and lends those bytes for writing. No other byte of the
    /// buffer changes. Until they are written they are what they were.
    pub fn room(&mut self, len: usize) -> &mut [u8]
        requires { len ≤ size_of self.old.class }
        ensures* writes_back { sem 𝓛 (LendsFilled self.entry result) }
        ensures bytes { result.now ≡ take len self.old.bytes }
        ensures length { length result.now ≡ len }
    {
        self.filled = len as u32;
        self.filled_mut()
    }

    // The filled bytes, for writing.
    fn filled_mut(&mut self) -> &mut [u8]
        ensures* writes_back { sem 𝓛 (LendsFilled self.entry result) }
        ensures value { result.now ≡ filled_bytes self.old }
        ensures length { length result.now ≡ self.old.filled }
    {
        self.bytes.slice_mut(..self.filled as usize)
    }

    /// The filled bytes.
    pub fn filled(&self) -> &[u8]
        ensures bytes { result.now ≡ filled_bytes self.now }
        ensures length { length result.now ≡ self.now.filled }
    {
        &self.bytes[..self.filled as usize]
    }
}
