//! Why a run of the program did not end well.
ghost use Rattle.std.specs.Prelude.{◌≡◌};
ghost use Rattle.lw_program.specs.Statuses.{status_of};

use lw_model::ScriptRefusal;
use std::error::Error;
use std::fmt;

/// Why a run did not end well. It prints as the line that the program writes to standard error.
#[derive(Debug, Drop)]
pub enum Fault {
    /// The words are none of the command table.
    Usage,
    /// The bytes read are no script, or none that the run serves. Never `NoMemory`, which is a fault of its own.
    Script(ScriptRefusal),
    /// The bytes read are no walk: the first bad line, from 1, and 0 where there are too many bytes.
    Walk { line: u64 },
    /// The bytes read are no lawful report: the first rule that they fail, and the first line at which they do. Rule 0
    /// is that they are a record's text; it fails at line 0 where there are too many bytes.
    Unlawful { clause: u8, line: u64 },
    /// The source failed.
    ReadFault,
    /// The sink failed. What it took is a prefix of the text.
    WriteFault,
    NoMemory,
}

impl Fault {
    /// The exit status: 1 usage, 2 script or walk, 3 read fault, 4 write fault, 5 no memory, 6 unlawful.
    pub fn status(&self) -> u8
        ensures { result ≡ status_of self.now }
    {
        match self {
            Fault::Usage => 1,
            Fault::Script(_) => 2,
            Fault::Walk { .. } => 2,
            Fault::Unlawful { .. } => 6,
            Fault::ReadFault => 3,
            Fault::WriteFault => 4,
            Fault::NoMemory => 5,
        }
    }
}

impl fmt::Display for Fault {
    ghost use Rattle.std.specs.Prelude.{Some};
    ghost use Rattle.lw_program.specs.FaultLines.{fault_line};

    ghost output = { λ fault. Some (fault_line fault) };

    fn fmt<W: fmt::Write>(&self, f: &mut fmt::Formatter<W>) -> fmt::Result {
        match self {
            Fault::Usage => f.write_str("usage: lightrun run, check, walk or load SEED OPS"),
            Fault::Script(refusal) => write!(f, "{refusal}"),
            Fault::Walk { line } => write!(f, "walk: line {line}"),
            Fault::Unlawful { clause, line } => {
                write!(f, "unlawful: clause {clause} line {line}")
            }
            Fault::ReadFault => f.write_str("read failed"),
            Fault::WriteFault => f.write_str("write failed"),
            Fault::NoMemory => f.write_str("out of memory"),
        }
    }
}

impl Error for Fault {}
