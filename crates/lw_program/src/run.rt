//! The command `run`: a script is read, run and reported.
ghost use Rattle.std.specs.Prelude.{◌≡◌, IfOk, IfErr};
ghost use Rattle.lw_model.specs.Ranges.{RecordFits};
ghost use Rattle.lw_model.specs.ReportText.{text_of};
ghost use Rattle.lw_target.specs.Options.{AreServed};
ghost use Rattle.lw_program.specs.Commands.{Explains};
ghost use Rattle.lw_program.specs.Runs.{IsRunOf, IsRunUnder, run_command};

use crate::command::{Command, Told};
use crate::fault::Fault;
use lw_base::{Clock, Gate};
use lw_model::{Record, ScriptRefusal};
use lw_report_print::print;
use lw_script::read_script;
use lw_target::{Options, run_script};
use std::alloc::Global;
use std::sync::Wait;

/// How many bytes a script may have: 16 MiB.
const SCRIPT_LIMIT: usize = 16_777_216;

/// The run of a script under options.
#[derive(Copy, Clone)]
pub struct RunCommand {
    options: Options,
    pub ghost served: { AreServed options },
}

impl RunCommand {
    /// Under these options.
    pub fn new(options: Options) -> Self
        requires { AreServed options }
        ensures { result.options ≡ options }
    {
        RunCommand { options }
    }
}

impl Command for RunCommand {
    ghost use Rattle.lw_program.specs.Runs.{run_command};

    type Value = Record;

    ghost is = { λ run. run_command run.options };

    fn limit(&self) -> Option<usize> {
        Some(SCRIPT_LIMIT)
    }

    fn answer<R: Wait, C: Clock + Drop, G: Gate>(
        self,
        rt: &R,
        alloc: Global,
        bytes: &[u8],
        _clocks: Vec<C>,
        _gate: &G,
    ) -> Result<Told<Record>, Fault> {
        report_of(rt, alloc, bytes, self.options)
    }
}

// The record of a script's bytes, with its text.
fn report_of<R: Wait>(
    rt: &R,
    alloc: Global,
    bytes: &[u8],
    options: Options,
) -> Result<Told<Record>, Fault>
    requires { AreServed options }
    ensures told { IfOk result (λ told. IsRunOf bytes.now told.value × IsRunUnder options told.value × (told.text.items ≡ text_of told.value) × RecordFits told.value) }
    ensures fault { IfErr result (Explains (run_command options) bytes.now) }
{
    match record_of(rt, alloc, bytes, options) {
        Ok(record) => match print(alloc, &record) {
            Ok(text) => Ok(Told {
                value: record,
                text,
            }),
            Err(_) => Err(Fault::NoMemory),
        },
        Err(fault) => Err(fault),
    }
}

// The record of a script's bytes.
fn record_of<R: Wait>(
    rt: &R,
    alloc: Global,
    bytes: &[u8],
    options: Options,
) -> Result<Record, Fault>
    requires { AreServed options }
    ensures record { IfOk result (λ r. IsRunOf bytes.now r × IsRunUnder options r) }
    ensures fault { IfErr result (Explains (run_command options) bytes.now) }
{
    match read_script(alloc, bytes) {
        Ok(script) => match run_script(rt, alloc, script, options) {
            Ok(record) => Ok(record),
            Err(_) => Err(Fault::NoMemory),
        },
        Err(ScriptRefusal::NoMemory) => Err(Fault::NoMemory),
        Err(refusal) => Err(Fault::Script(refusal)),
    }
}
