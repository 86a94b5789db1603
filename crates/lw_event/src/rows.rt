//! Rows and columns of ends.
ghost use Rattle.std.specs.Prelude.{◌≡◌, ℕ, ◌<◌, [], ◌∷◌, ◌++◌, length, slice_index_or, IfOk, All};

use lw_base::NoMemory;
use std::alloc::Global;

/// Puts one value at the end of each row: the k-th into row k.
pub fn deal<X: Drop>(rows: &mut Vec<Vec<X>>, column: Vec<X>) -> Result<(), NoMemory>
    requires { length column.items ≡ length rows.old.items }
    ensures count { IfOk result (λ _. length rows.new.items ≡ length rows.old.items) }
    ensures each { IfOk result (λ _. (k : ℕ) (r : _) (x : X) → k < length rows.old.items →
        (slice_index_or rows.new.items k r).items ≡ (slice_index_or rows.old.items k r).items ++ slice_index_or column.items k x ∷ []) }
{
    let mut at = 0;
    for value in column {
        rows[at].push(value)?;
        at += 1;
    }
    Ok(())
}

/// So many empty rows.
pub fn empty<X: Drop>(alloc: Global, count: usize) -> Result<Vec<Vec<X>>, NoMemory>
    ensures count { IfOk result (λ v. length v.items ≡ count) }
    ensures each { IfOk result (λ v. All (λ r. r.items ≡ []) v.items) }
{
    let mut rows = Vec::new(alloc);
    for made in 0..count {
        rows.push(Vec::new(alloc))?;
    }
    Ok(rows)
}
