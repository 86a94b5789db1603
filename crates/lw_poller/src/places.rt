//! Where a poller stands in its list.
ghost use Rattle.std.specs.Prelude.{◌≡◌, ◌≢◌, ℕ, ◌<◌, ◌≤◌, true, false, length, slice_index_or, All, IfSome, IfNone, vec_len, vec_capacity};
ghost use Rattle.std.specs.List.Sorted.{IsNonDecreasingBy};
ghost use Rattle.lw_poller.specs.Numbers.{most_pollers, Has, Lacks};
ghost use Rattle.lw_poller.specs.Pollers.{active_number, timed_number, resting_number, due_of};
ghost use Rattle.lw_poller.specs.Changes.{Stands, IsQueued};

use crate::numbers::Numbers;
use crate::poller::{Active, Resting, Timed};
use lw_base::Tick;

/// In which list of a set a poller stands, and at which place.
#[derive(Clone, Copy)]
pub enum Spot {
    /// Among the active ones.
    Active(usize),
    /// Among the timed ones that aren't paused.
    Timed(usize),
    /// Among the timed ones that are paused.
    Resting(usize),
}

// The place of the active poller with this number.
pub(crate) fn place_of_active(pollers: &[Active], number: u32) -> Option<usize>
    ensures found { IfSome result (λ place. Stands active_number pollers.now place number) }
    ensures none { IfNone result (All (λ p. p.number ≢ number) pollers.now) }
{
    for (place, poller) in pollers.iter().enumerate() {
        if poller.number == number {
            return Some(place);
        }
    }
    None
}

// The place of the timed poller with this number.
pub(crate) fn place_of_timed(pollers: &[Timed], number: u32) -> Option<usize>
    ensures found { IfSome result (λ place. Stands timed_number pollers.now place number) }
    ensures none { IfNone result (All (λ p. p.number ≢ number) pollers.now) }
{
    for (place, poller) in pollers.iter().enumerate() {
        if poller.number == number {
            return Some(place);
        }
    }
    None
}

// The place of the paused timed poller with this number.
pub(crate) fn place_of_resting(pollers: &[Resting], number: u32) -> Option<usize>
    ensures found { IfSome result (λ place. Stands resting_number pollers.now place number) }
    ensures none { IfNone result (All (λ p. p.number ≢ number) pollers.now) }
{
    for (place, poller) in pollers.iter().enumerate() {
        if poller.number == number {
            return Some(place);
        }
    }
    None
}

// The first place from `turn` up to `before` at which the poller isn't paused.
pub(crate) fn awake_place(pollers: &[Active], turn: usize, before: usize) -> Option<usize>
    requires before { before ≤ length pollers.now }
    ensures within { IfSome result (λ place. (turn ≤ place) × (place < before)) }
    ensures awake { IfSome result (λ place. (d : Active) → (slice_index_or pollers.now place d).paused ≡ false) }
    ensures first { IfSome result (λ place. (k : ℕ) (d : Active) → turn ≤ k → k < place → (slice_index_or pollers.now k d).paused ≡ true) }
    ensures none { IfNone result ((k : ℕ) (d : Active) → turn ≤ k → k < before → (slice_index_or pollers.now k d).paused ≡ true) }
{
    for place in turn..before {
        if !pollers[place].paused {
            return Some(place);
        }
    }
    None
}

// The first place at which the poller isn't in the set `over` and is due at `now`. The pollers stand by due time.
pub(crate) fn due_place(pollers: &[Timed], over: Numbers, now: Tick) -> Option<usize>
    requires by_due { IsNonDecreasingBy due_of pollers.now }
    requires low { All (λ p. p.number < most_pollers) pollers.now }
    ensures within { IfSome result (λ place. place < length pollers.now) }
    ensures waits { IfSome result (λ place. (d : Timed) → Lacks over.word (slice_index_or pollers.now place d).number) }
    ensures due { IfSome result (λ place. (d : Timed) → (slice_index_or pollers.now place d).due ≤ now) }
    ensures first { IfSome result (λ place. (k : ℕ) (d : Timed) → k < place → Has over.word (slice_index_or pollers.now k d).number) }
    ensures none { IfNone result (All (λ p. Lacks over.word p.number → now < p.due) pollers.now) }
{
    for (place, poller) in pollers.iter().enumerate() {
        if poller.due > now {
            return None;
        }
        if !over.has(poller.number) {
            return Some(place);
        }
    }
    None
}

// Puts a poller in behind all that are due no later. There is room.
pub(crate) fn queue(pollers: &mut Vec<Timed>, poller: Timed)
    requires by_due { IsNonDecreasingBy due_of pollers.old.items }
    requires room { vec_len pollers.old < vec_capacity pollers.old }
    ensures queued { IsQueued poller pollers.old.items pollers.new.items }
    ensures by_due { IsNonDecreasingBy due_of pollers.new.items }
    ensures room { vec_capacity pollers.old ≤ vec_capacity pollers.new }
{
    let place = pollers.as_slice().partition_point(|p| p.due <= poller.due);
    if pollers.insert(place, poller).is_err() {
        unreachable!();
    }
}
