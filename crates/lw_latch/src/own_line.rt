//! Where the word of a latch stands in its table, so that it lies alone on its cache line.

/// How many words the table has.
pub const WORDS: usize = 16;

/// Which of them is the latch's: 64 bytes stand before it and 56 behind it, so that what others write next to the table never
/// lies on its cache line.
pub const WORD: usize = 8;
