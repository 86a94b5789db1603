//! Where each light thread stands: in the list of a reactor, on its way to one, held by one until it is started, or ended.
//!
//! All light threads of a run share one table of atomic words. A seat is what its holder knows of these words, and by it
//! alone the holder changes or reads them. Each thread has a seat, which alone moves the thread, and each reactor has a desk,
//! a seat that counts the threads that it retired, says when the run is to stop, and looks. To gather is to join all seats
//! into one, which then knows the words.
#![tactic(auto)]

mod bundle;
mod desk_seat;
mod gathering;
mod making;
mod place;
mod table;
mod thread_seat;

pub use desk_seat::DeskSeat;
pub use gathering::{Whole, gather};
pub use making::places;
pub use place::{Place, Start};
pub use table::{Homes, PlaceRule, PlaceTable, PlaceView, Stand};
pub use thread_seat::ThreadSeat;
