//! The script, the record of a run, and the definitions over them that contracts cite.
#![tactic(auto)]

mod laws;
mod record;
mod refusal;
mod script;
mod step;

pub use laws::{journals_are_of_clients, verdict_is_exact, verdict_is_first};
pub use lw_base::{DeviceEnd, Home, Hop, Items, Limits, Order, Round, Row, Scheduler, Text};
pub use record::{
    Answer, Called, Did, Record, Replied, Reply, RoleKind, Seen, SeenBy, Span, ThreadRecord,
};
pub use refusal::ScriptRefusal;
pub use script::{ClientOf, ImageOf, Op, Script};
pub use step::Step;
