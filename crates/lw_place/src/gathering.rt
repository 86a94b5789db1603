//! What is known of the places once all seats are in one hand.
ghost use Rattle.std.specs.Prelude.{◌≡◌, ℕ, ◌+◌, ◌<◌, ◌≤◌, true, false, [], ◌++◌, length, map, slice_index_or, All, IfOk};
ghost use Rattle.lw_place.specs.PlaceTable.{times, StandsAt};
ghost use Rattle.lw_place.specs.PlaceSeats.{AreAllSeats, all_retired, all_halted, most_seen, most_halt_seen, stand, Places, places_of, Holds};

use crate::bundle::Bundle;
use crate::desk_seat::DeskSeat;
use crate::place::Place;
use crate::thread_seat::ThreadSeat;
use lw_base::NoMemory;
use std::alloc::Global;

/// The words of the places at the end of a run.
#[derive(Drop)]
pub struct Whole {
    /// Where each thread stands, by its number.
    pub places: Vec<Place>,
    /// How many threads were retired.
    pub done: u64,
    /// Whether the run was halted.
    pub halted: bool,
}

/// Gathers all seats of some places, and reads the words.
///
/// All desks are handed in, and all threads: as many as were made; or ended ones, as many as the desks retired, where a
/// desk saw at least as many retired as there are threads. The order of the seats does not matter. There are as many seats
/// of threads as threads were made, each thread's once, and each thread stands where its seat says. What a desk saw is so:
/// as many were retired at least, and a run that was seen halted is halted. Without memory the seats are dropped.
pub fn gather(
    alloc: Global,
    threads: Vec<ThreadSeat>,
    desks: Vec<DeskSeat>,
) -> Result<Whole, NoMemory>
    requires { AreAllSeats threads.items desks.items }
    ensures count { IfOk result (λ w.
        All (λ d. length w.places.items ≡ d.places.threads) desks.items) }
    ensures seats { IfOk result (λ w. length threads.items ≡ length w.places.items) }
    ensures once { IfOk result (λ w. (t : ℕ) → t < length w.places.items →
        times t (map stand threads.items) ≡ 1) }
    ensures places { IfOk result (λ w. (t : ℕ) (d : Place) → t < length w.places.items →
        StandsAt (map stand threads.items) t (slice_index_or w.places.items t d)) }
    ensures ended { IfOk result (λ w. All (λ t. t.place ≡ Place.Ended) threads.items →
        All (λ p. p ≡ Place.Ended) w.places.items) }
    ensures done { IfOk result (λ w. w.done ≡ all_retired desks.items) }
    ensures halted { IfOk result (λ w. (w.halted ≡ true → 1 ≤ all_halted desks.items)
        × (w.halted ≡ false → all_halted desks.items ≡ 0)) }
    ensures done_seen { IfOk result (λ w. All (λ d. d.done_seen ≤ w.done) desks.items) }
    ensures halt_seen { IfOk result (λ w.
        All (λ d. 1 ≤ d.halt_seen → w.halted ≡ true) desks.items) }
{
    let mut whole = join_threads(join_desks(desks), threads);
    let done = whole.done();
    let halted = whole.halted();
    let places = all_places(alloc, whole)?;
    Ok(Whole {
        places,
        done,
        halted,
    })
}

// One seat that stands for all these desks.
fn join_desks(mut desks: Vec<DeskSeat>) -> Bundle
    requires some { 1 ≤ length desks.items }
    requires one_table { (p : Places) × All (λ d. d.places ≡ p) desks.items }
    ensures of { All (λ d. d.places ≡ places_of result.table result.view) desks.items }
    ensures holds { Holds (places_of result.table result.view) (length desks.items) (all_retired desks.items)
        (all_halted desks.items) (most_seen desks.items) (most_halt_seen desks.items) [] result }
{
    let Some(first) = desks.pop() else {
        unreachable!()
    };
    let mut whole = first.into_bundle();
    for desk in desks {
        whole.take_in(desk.into_bundle());
    }
    whole
}

// The seat, which stands for these threads too from now on.
fn join_threads(mut whole: Bundle, threads: Vec<ThreadSeat>) -> Bundle
    requires { All (λ t. t.places ≡ places_of whole.table whole.view) threads.items }
    ensures { Holds (places_of whole.table whole.view) whole.view.desks whole.view.retired whole.view.halted
        whole.view.done_seen whole.view.halt_seen (whole.view.stands ++ map stand threads.items) result }
{
    for thread in threads {
        whole.take_in(thread.into_bundle());
    }
    whole
}

// Where each thread stands, by the words.
fn all_places(alloc: Global, mut whole: Bundle) -> Result<Vec<Place>, NoMemory>
    requires { length whole.view.stands ≡ whole.view.threads }
    ensures count { IfOk result (λ v. length v.items ≡ whole.view.threads) }
    ensures each { IfOk result (λ v. (t : ℕ) (d : Place) → t < whole.view.threads →
        StandsAt whole.view.stands t (slice_index_or v.items t d)) }
{
    let mut places = Vec::new(alloc);
    for thread in 0..whole.threads() {
        places.push(whole.place(thread))?;
    }
    Ok(places)
}
