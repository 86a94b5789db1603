//! How the places of a run are made.
ghost use Rattle.std.specs.Prelude.{◌≡◌, ℕ, ◌+◌, ◌<◌, ◌≤◌, [], ◌∷◌, length, map, replicate, All, IfOk};
ghost use Rattle.lw_place.specs.PlaceWord.{most_threads, most_reactors, start_place, IsBelow};
ghost use Rattle.lw_place.specs.PlaceTable.{first_view, less_first_thread, less_one_desk, words_of};
ghost use Rattle.lw_place.specs.PlaceSeats.{AreNew, new_desk, places_of};

use crate::bundle::Bundle;
use crate::desk_seat::DeskSeat;
use crate::place::{Place, Start};
use crate::table::{Homes, PlaceTable};
use crate::thread_seat::ThreadSeat;
use lw_base::NoMemory;
use std::alloc::Global;
use std::sync::Arc;

/// The places of 1 to 127 light threads over 1 to 16 reactors: a seat for each thread, by its number, and a desk for each
/// reactor.
///
/// Thread t starts as `starts` says at t, at one of these reactors.
pub fn places(
    alloc: Global,
    starts: &[Start],
    reactors: u32,
) -> Result<(Vec<ThreadSeat>, Vec<DeskSeat>), NoMemory>
    requires threads { (1 ≤ length starts.now) × (length starts.now ≤ most_threads) }
    requires reactors { (1 ≤ reactors) × (reactors ≤ most_reactors) }
    requires starts { All (λ start. IsBelow reactors (start_place start)) starts.now }
    ensures { IfOk result (λ r. AreNew (map start_place starts.now) reactors r.0.items r.1.items) }
{
    let of = begun(alloc, starts)?;
    places_from(alloc, Homes { of, reactors })
}

// The places at the start.
fn begun(alloc: Global, starts: &[Start]) -> Result<Vec<Place>, NoMemory>
    ensures { IfOk result (λ v. v.items ≡ map start_place starts.now) }
{
    let mut places = Vec::new(alloc);
    for start in starts {
        places.push(start.place())?;
    }
    Ok(places)
}

// The seats and desks of threads that start at these places.
fn places_from(alloc: Global, homes: Homes) -> Result<(Vec<ThreadSeat>, Vec<DeskSeat>), NoMemory>
    requires threads { (1 ≤ length homes.of.items) × (length homes.of.items ≤ most_threads) }
    requires reactors { homes.reactors ≤ most_reactors }
    requires homes { All (IsBelow homes.reactors) homes.of.items }
    ensures { IfOk result (λ r. AreNew homes.of.items homes.reactors r.0.items r.1.items) }
{
    let mut all = found(alloc, &homes)?;
    let mut threads = Vec::new(alloc);
    for thread in 0..homes.of.len() as u32 {
        threads.push(all.deal_thread(thread, homes.of[thread as usize])?)?;
    }
    let desks = deal_desks(alloc, all, homes.reactors)?;
    Ok((threads, desks))
}

// The desks of so many reactors, dealt out of a seat that stands for as many and for no thread more.
fn deal_desks(alloc: Global, mut all: Bundle, reactors: u32) -> Result<Vec<DeskSeat>, NoMemory>
    requires desks { all.view.desks ≡ reactors }
    requires new { (all.view.retired ≡ 0) × (all.view.halted ≡ 0) }
    ensures { IfOk result (λ ds. ds.items ≡ replicate reactors (new_desk (places_of all.table all.view))) }
{
    let mut desks = Vec::new(alloc);
    for _ in 0..reactors {
        desks.push(all.deal_desk()?)?;
    }
    Ok(desks)
}

// The table of these homes, with the seat that stands for all.
fn found(alloc: Global, homes: &Homes) -> Result<Bundle, NoMemory>
    requires threads { (1 ≤ length homes.now.of.items) × (length homes.now.of.items ≤ most_threads) }
    requires reactors { homes.now.reactors ≤ most_reactors }
    requires homes { All (IsBelow homes.now.reactors) homes.now.of.items }
    ensures { IfOk result (λ b. b.view ≡ first_view homes.now) }
{
    let words = words(alloc, homes.of.as_slice())?;
    let (table, seat) = PlaceTable::of_words(alloc, words.as_slice(), homes)?;
    Ok(Bundle {
        table: Arc::new(alloc, table)?,
        seat,
    })
}

// The words at the start: nothing retired, not halted, and each thread where it starts.
fn words(alloc: Global, homes: &[Place]) -> Result<Vec<u64>, NoMemory>
    ensures { IfOk result (λ v. v.items ≡ words_of homes.now) }
{
    let mut words = Vec::new(alloc);
    words.push(0)?;
    words.push(0)?;
    for home in homes {
        words.push(home.word())?;
    }
    Ok(words)
}
