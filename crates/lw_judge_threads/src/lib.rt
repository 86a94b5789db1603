//! What a judge of records needs of each thread: the numbers of its lines, its own order, what it holds, and lists of
//! lines against the wanted ones.
#![tactic(auto)]

mod against;
mod holding;
mod lines;
mod numbering;
mod ops;
mod order;

pub use against::Against;
pub use holding::Holding;
pub use lines::{Layout, ThreadLines, after, at_line, behind_round, failing, lesser};
pub use numbering::is_numbering;
pub use ops::{image_at, op_at};
pub use order::own_order;
