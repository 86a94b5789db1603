//! Whether a list's numbers count it.
ghost use Rattle.std.specs.Prelude.{◌≡◌, ◌==◌, length, map, count_by, IfOk};
ghost use Rattle.std.specs.List.{range_with_len};
ghost use Rattle.lw_model.specs.Verdict.{is_numbering};

use lw_base::NoMemory;
use std::alloc::Global;

/// Whether each number below the length stands in the list once.
pub fn is_numbering(alloc: Global, numbers: &[u64]) -> Result<bool, NoMemory>
    ensures { IfOk result (λ counts. counts ≡ is_numbering numbers.now) }
{
    let counts = counts_below_len(alloc, numbers)?;
    Ok(counts.iter().all(|count| *count == 1))
}

// How often each number below the length stands in the list.
fn counts_below_len(alloc: Global, numbers: &[u64]) -> Result<Vec<u64>, NoMemory>
    ensures { IfOk result (λ counts. counts.items
        ≡ map (λ n. count_by (λ m. m == n) numbers.now) (range_with_len 0 (length numbers.now))) }
{
    let mut counts = vec![in alloc; 0; numbers.len()]?;
    for number in numbers {
        if let Some(count) = counts.get_mut(*number as usize) {
            *count += 1;
        }
    }
    Ok(counts)
}
