//! The two classes of buffers.

/// How many bytes a small buffer has.
pub const SMALL_BYTES: usize = 8_192;

/// How many bytes a large buffer has.
pub const LARGE_BYTES: usize = 135_168;

/// A class of buffers.
#[derive(Clone, Copy, PartialEq, Eq, Debug)]
pub enum Class {
    /// 8,192 bytes.
    Small,
    /// 135,168 bytes.
    Large,
}
