//! How a run of the program ends.
ghost use Rattle.std.specs.Prelude.{◌≡◌, Some, None};
ghost use Rattle.lw_program.specs.Statuses.{end_status};

use crate::fault::Fault;
use lw_model::Record;

/// How a run ended.
#[derive(Drop)]
pub struct Finish {
    /// 0 where there is no fault, else the fault's own (docs/usage.md).
    pub status: u8,
    /// The record of the run, with status 0 and 4 of the words `run`.
    pub told: Option<Record>,
    pub fault: Option<Fault>,
    pub ghost agrees: { status ≡ end_status fault },
}

impl Finish {
    /// An end without a record.
    pub fn failed(fault: Fault) -> Self
        ensures fault { result.fault ≡ Some fault }
        ensures told { result.told ≡ None }
    {
        Finish {
            status: fault.status(),
            told: None,
            fault: Some(fault),
        }
    }

    // An end with what was told, if anything, and what went wrong, if anything.
    pub(crate) fn of(told: Option<Record>, fault: Option<Fault>) -> Self
        ensures fault { result.fault ≡ fault }
        ensures told { result.told ≡ told }
    {
        let status = match &fault {
            Some(fault) => fault.status(),
            None => 0,
        };
        Finish {
            status,
            told,
            fault,
        }
    }
}
