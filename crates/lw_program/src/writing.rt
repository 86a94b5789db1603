//! All of a text into a sink.
ghost use Rattle.std.specs.Prelude.{◌≡◌, OnOk, OnErr};
ghost use Rattle.lw_base.specs.Outside.{Rose, HasTaken};
ghost use Rattle.lw_program.specs.Bytes.{HasTakenPart};

use lw_base::{Failed, Sink};

/// Writes all of a text. It takes no memory.
///
/// Where the sink fails, what was added is a prefix of the text.
pub fn write_all<O: Sink>(out: &mut O, text: &[u8]) -> Result<(), Failed>
    ensures ok { OnOk result (HasTaken (O.holds out.old) text.now (O.holds out.new)) }
    ensures part { OnErr result (HasTakenPart (O.holds out.old) text.now (O.holds out.new)) }
    ensures fault { OnErr result (Rose (O.faults out.old) (O.faults out.new)) }
    ensures sound { OnOk result (O.faults out.new ≡ O.faults out.old) }
{
    let mut written = 0;
    while written < text.len() {
        written += out.write(&text[written..])?;
    }
    Ok(())
}
