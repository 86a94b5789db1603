//! Where a thread may stand.
ghost use Rattle.std.specs.Prelude.{◌≡◌, ◌<◌, ◌≤◌, slice_index};
ghost use Rattle.lw_base.specs.Masks.{allows, allowed};

/// Whether a mask allows one of 1 to 16 reactors: its bit is set, or no bit of the reactors is.
pub fn allows(mask: u32, reactors: u32, reactor: u32) -> bool
    requires reactors { reactors ≤ 16 }
    requires reactor { reactor < reactors }
    ensures { result ≡ allows mask reactors reactor }
{
    (mask >> reactor) % 2 == 1 || mask % (1 << reactors) == 0
}

/// The least of 1 to 16 reactors that a mask allows.
pub fn lowest(mask: u32, reactors: u32) -> u32
    requires { (1 ≤ reactors) × (reactors ≤ 16) }
    ensures lowest { result ≡ slice_index (allowed mask reactors) 0 }
    ensures below { result < reactors }
{
    let mut lowest = 0;
    let mut reactor = reactors;
    while reactor > 0 {
        reactor -= 1;
        if allows(mask, reactors, reactor) {
            lowest = reactor;
        }
    }
    lowest
}
