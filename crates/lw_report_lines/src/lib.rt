//! One line of a report: what it says, where it is of a kind.
#![tactic(auto)]

mod kinds;
mod line_kinds;
mod move_lines;
mod parts;
mod placed_lines;
mod script_lines;
mod single;

pub use line_kinds::{
    CalledLine, ClientLine, ClockLine, DeviceLine, DidLine, HopLine, ImageLine, Kind, OpLine,
    OrderLine, RanLine, ReplyLine, RoundLine, RowLine, SchedulerLine, SeenLine, ThreadLine,
};
pub use move_lines::RoundHead;
pub use script_lines::ClientHead;
pub use single::{FixedLine, NumberLine, PairLine, ReactorsLine};
