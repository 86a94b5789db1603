//! A record from its text.
ghost use Rattle.std.specs.Prelude.{◌≡◌, IfOk, true};
ghost use Rattle.lw_model.specs.Printable.{is_printable};
ghost use Rattle.lw_report.specs.Report.{reading};
ghost use Rattle.lw_report.specs.Parsed.{IsOfText, contents_of, Tells};

use crate::contents::Contents;
use crate::lines::{Lines, Stop};
use crate::report::report;
use lw_base::NoMemory;
use lw_model::Record;
use std::alloc::{AllocError, Global};

/// What a text is as a report.
#[derive(Drop)]
pub enum Parsed {
    /// The text of this record.
    Told(Record),
    /// No record's text. The first line that isn't one of those allowed next, from 1.
    BadLine { line: u64 },
}

// The record with these fields.
fn record(contents: Contents) -> Record
    requires { is_printable contents.script contents.scheduler contents.reactors contents.period contents.threads contents.devices contents.span contents.rounds ≡ true }
    ensures { contents_of result ≡ contents }
{
    Record {
        script: contents.script,
        scheduler: contents.scheduler,
        reactors: contents.reactors,
        period: contents.period,
        threads: contents.threads,
        devices: contents.devices,
        span: contents.span,
        rounds: contents.rounds,
        home: contents.home,
    }
}

/// Reads the text of a report, of a static or a dynamic run.
pub fn read_report(alloc: Global, bytes: &[u8]) -> Result<Parsed, NoMemory>
    ensures told { IfOk result (λ p. Tells p (reading bytes.now)) }
    ensures text { IfOk result (λ p. IsOfText p bytes.now) }
{
    let mut lines = Lines::of(bytes);
    match report(alloc, &mut lines) {
        Ok(contents) => Ok(Parsed::Told(record(contents))),
        Err(Stop::BadLine) => Ok(Parsed::BadLine { line: lines.line() }),
        Err(Stop::NoMemory) => Err(AllocError),
    }
}
