//! The dynamic scheduler's part in plain data: when a round is due, what load a thread is, and the plan of a round, the
//! orders that move threads between reactors.
//!
//! No reactor, ring or clock stands here: a round's rows come in, and its orders go out. The rule is that of
//! `lw_base/specs/Plan`, which the rules of a lawful record cite too.
#![tactic(auto)]

mod best;
mod load;
mod masks;
mod planning;
mod rounds;

pub use load::load_of;
pub use lw_base::{Limits, Order, Round, Row, Scheduler};
pub use planning::plan;
pub use rounds::due;
