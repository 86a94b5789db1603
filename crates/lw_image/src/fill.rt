//! A pattern repeated over a slice.
ghost use Rattle.std.specs.Prelude.{◌≡◌, ℕ, ◌+◌, ◌-◌, ◌<◌, ◌≤◌, ◌%◌, length, min, slice_index, EachIndex};

use std::cmp;

/// Repeats a pattern, which isn't empty, over a slice from its first byte on.
///
/// What is written already is copied behind itself, so a short pattern takes few copies, each twice as long as the
/// one before.
pub fn fill_with(range: &mut [u8], pattern: &[u8])
    requires { 0 < length pattern.now }
    ensures { EachIndex range.new (λ k. slice_index range.new k ≡ slice_index pattern.now (k % length pattern.now)) }
{
    let mut done = copy_front(range, pattern);
    while done < range.len() {
        done += repeat_front(range, done);
    }
}

// Copies as much of the pattern as fits, and answers how many bytes that is.
fn copy_front(range: &mut [u8], pattern: &[u8]) -> usize
    ensures count { result ≡ min (length pattern.now) (length range.old) }
    ensures bytes { (k : ℕ) → k < result → slice_index range.new k ≡ slice_index pattern.now k }
{
    let count = cmp::min(pattern.len(), range.len());
    range[..count].copy_from_slice(&pattern[..count]);
    count
}

// Copies as many of the first `done` bytes as fit behind them, and answers how many that is.
fn repeat_front(range: &mut [u8], done: usize) -> usize
    requires { done ≤ length range.old }
    ensures count { result ≡ min done (length range.old - done) }
    ensures front { (k : ℕ) → k < done → slice_index range.new k ≡ slice_index range.old k }
    ensures behind { (k : ℕ) → k < result → slice_index range.new (done + k) ≡ slice_index range.old k }
{
    let (front, back) = range.split_at_mut(done);
    let count = cmp::min(front.len(), back.len());
    back[..count].copy_from_slice(&front[..count]);
    count
}
