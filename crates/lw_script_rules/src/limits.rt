//! The limits that a script must keep, one rule a function.
ghost use Rattle.std.specs.Prelude.{◌≡◌, ◌<◌, ◌^◌, ◌*◌, ◌&&◌, nat_lt, nat_le, length, count_by, min};
ghost use Rattle.std.specs.List.{list_all};
ghost use Rattle.lw_model.specs.ScriptRules.{all_ops, is_within, has_image_count, has_block_sizes, has_image_sizes, has_client_count, has_depths, has_op_count, has_pool_counts, goes_round, has_round_count, waits_within, has_wait_times};

use lw_model::{ClientOf, ImageOf, Op, Script};

/// Whether a number is at least `low` and at most `high`.
pub fn is_within(low: u64, high: u64, n: u64) -> bool
    ensures { result ≡ is_within low high n }
{
    low <= n && n <= high
}

/// Limit 1: 1 to 16 images.
pub fn has_image_count(script: &Script) -> bool
    ensures { result ≡ has_image_count script.now }
{
    is_within(1, 16, script.images.len() as u64)
}

/// Limit 2: each block is a power of two from 16 to 4,096.
pub fn has_block_sizes(script: &Script) -> bool
    ensures { result ≡ has_block_sizes script.now }
{
    script.images.as_slice().iter().all(|image| {
        matches!(
            image.block,
            16 | 32 | 64 | 128 | 256 | 512 | 1024 | 2048 | 4096
        )
    })
}

/// Limit 3: each image has a block, and at most 16,777,216 bytes.
pub fn has_image_sizes(script: &Script) -> bool
    ensures { result ≡ has_image_sizes script.now }
{
    script.images.as_slice().iter().all(has_image_size)
}

fn has_image_size(image: &ImageOf) -> bool
    ensures { result ≡ (nat_lt 0 image.now.blocks && nat_le (image.now.blocks * image.now.block) 16777216) }
{
    0 < image.blocks && image.blocks as u128 * image.block as u128 <= 16_777_216
}

/// Limit 4: 1 to 64 clients.
pub fn has_client_count(script: &Script) -> bool
    ensures { result ≡ has_client_count script.now }
{
    is_within(1, 64, script.clients.len() as u64)
}

/// Limit 5: each depth is 1 to 32.
pub fn has_depths(script: &Script) -> bool
    ensures { result ≡ has_depths script.now }
{
    script
        .clients
        .as_slice()
        .iter()
        .all(|client| is_within(1, 32, client.depth as u64))
}

/// Limit 6: at most 100,000 ops in all.
pub fn has_op_count(script: &Script) -> bool
    ensures { result ≡ has_op_count script.now }
{
    op_count(script) <= 100_000
}

// The number of ops, or the greatest u64 where there are more.
fn op_count(script: &Script) -> u64
    ensures { result ≡ min (length (all_ops script.now)) 18446744073709551615 }
{
    let mut count: u64 = 0;
    for client in script.clients.as_slice() {
        count = count.saturating_add(client.ops.len() as u64);
    }
    count
}

/// Limit 7: each pool count is 1 to 1,024.
pub fn has_pool_counts(script: &Script) -> bool
    ensures { result ≡ has_pool_counts script.now }
{
    is_within(1, 1024, script.small as u64) && is_within(1, 1024, script.large as u64)
}

/// Limit 8: at most 1,000 ops that go round all threads, visits and eaches.
pub fn has_round_count(script: &Script) -> bool
    ensures { result ≡ has_round_count script.now }
{
    round_count(script) <= 1000
}

// The number of ops that go round, or the greatest u64 where there are more.
fn round_count(script: &Script) -> u64
    ensures { result ≡ min (count_by goes_round (all_ops script.now)) 18446744073709551615 }
{
    let mut count: u64 = 0;
    for client in script.clients.as_slice() {
        count = count.saturating_add(rounds_in(client.ops.as_slice()) as u64);
    }
    count
}

fn rounds_in(ops: &[Op]) -> usize
    ensures { result ≡ count_by goes_round ops.now }
{
    ops.iter().filter(|op| goes_round(*op)).count()
}

fn goes_round(op: &Op) -> bool
    ensures { result ≡ goes_round op.now }
{
    matches!(op, Op::Visit { .. } | Op::Each)
}

/// Limit 9: each wait is 1 to 1,000,000,000 ticks.
pub fn has_wait_times(script: &Script) -> bool
    ensures { result ≡ has_wait_times script.now }
{
    have_wait_times(script.clients.as_slice())
}

fn have_wait_times(clients: &[ClientOf]) -> bool
    ensures { result ≡ list_all (λ c. list_all waits_within c.ops) clients.now }
{
    clients
        .iter()
        .all(|client| wait_within(client.ops.as_slice()))
}

fn wait_within(ops: &[Op]) -> bool
    ensures { result ≡ list_all waits_within ops.now }
{
    ops.iter().all(waits_within)
}

fn waits_within(op: &Op) -> bool
    ensures { result ≡ waits_within op.now }
{
    match op {
        Op::Wait { ticks } => is_within(1, 1_000_000_000, *ticks),
        _ => true,
    }
}
