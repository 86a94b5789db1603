//! The word of a device's latch, by its bits.

/// What an open channel or visit adds to the word: bits 0 to 15 count them.
pub const OPEN: u64 = 1;

/// What the shut bit, bit 16, adds to it.
pub const SHUT: u64 = 65_536;

/// What the fired bit, bit 17, adds to it.
pub const FIRED: u64 = 131_072;

/// What a channel that was given adds to it: bits 18 to 63 count them.
pub const GIVEN: u64 = 262_144;
