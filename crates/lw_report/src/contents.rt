//! What the lines of a report say.
use lw_model::{DeviceEnd, Home, Items, Round, Scheduler, Script, Span, ThreadRecord};

/// What a report says, before it is known that it has a text: the fields of a record.
#[derive(Drop)]
pub struct Contents {
    pub script: Script,
    pub scheduler: Scheduler,
    pub reactors: u32,
    pub period: u64,
    pub threads: Items<ThreadRecord>,
    pub devices: Items<DeviceEnd>,
    pub span: Option<Span>,
    pub rounds: Items<Round>,
    pub home: Home,
}

/// What a report says of how threads moved: the clock's readings and the rounds, which a dynamic run alone has.
#[derive(Drop)]
pub struct Moves {
    pub span: Option<Span>,
    pub rounds: Items<Round>,
}

/// What a report says before its script.
#[derive(Copy, Clone, Drop)]
pub struct Head {
    pub scheduler: Scheduler,
    pub reactors: u32,
    pub period: u64,
}
