//! The names of images and clients.
ghost use Rattle.std.specs.Prelude.{◌≡◌, ◌∷◌, ◌<◌, decimal, IfOk};

use lw_base::{NoMemory, Text};
use std::alloc::Global;

/// A letter, and a number in decimal.
pub(crate) fn name(alloc: Global, letter: char, number: u32) -> Result<Text, NoMemory>
    requires { letter < 128 }
    ensures { IfOk result (λ t. t ≡ letter ∷ decimal number) }
{
    Ok(Text::from_string(format!(in alloc; "{}{}", letter, number)?))
}
