//! What is printed as bytes of its own, and lists of it.
ghost use Rattle.std.specs.Prelude.{◌≡◌, ℕ, List, ◌++◌, string_bytes, flat_map, OnOk};
ghost use Rattle.std.specs.List.{AllByRecursion};

use std::alloc::{AllocError, Global};

pub trait Printed {
    ghost text: { Self → List ℕ };

    // Its numbers fit their types.
    ghost fits: { Self → Type 0 };

    // Puts the text at the end of `out`. What was printed is known to fit: its numbers were read.
    fn push_to(&self, alloc: Global, out: &mut String) -> Result<(), AllocError>
        ensures bytes { OnOk result (string_bytes out.new ≡ string_bytes out.old ++ text self.now) }
        ensures range { OnOk result (fits self.now) };
}

// Puts the texts of the items at the end of `out`, in order.
pub fn push_all<T: Printed>(alloc: Global, out: &mut String, items: &[T]) -> Result<(), AllocError>
    ensures bytes { OnOk result (string_bytes out.new
        ≡ string_bytes out.old ++ flat_map T.text items.now) }
    ensures range { OnOk result (AllByRecursion T.fits items.now) }
{
    for item in items {
        item.push_to(alloc, out)?;
    }
    Ok(())
}
