//! The top call: what the words ask for, over a source, a sink, clocks and a gate.
ghost use Rattle.std.specs.Prelude.{◌≡◌, ◌≢◌, ◌+◌, ◌≤◌, ◌↔◌, false, Some, None, vec_len, IfOk, IfSome};
ghost use Rattle.lw_base.specs.Outside.{Rose};
ghost use Rattle.lw_program.specs.Words.{asked};
ghost use Rattle.lw_program.specs.Served.{Serves};
ghost use Rattle.lw_program.specs.Outside.{seen};
ghost use Rattle.lw_program.specs.Statuses.{end_status};
ghost use Rattle.lw_program.specs.Bytes.{GivesAtMost, IsReadWithin};
ghost use Rattle.lw_program.specs.Ends.{Ends, EndsAsked, IsEnd, limit_asked, limit_of};

use crate::check::CheckCommand;
use crate::command::carry_out;
use crate::fault::Fault;
use crate::finish::Finish;
use crate::run::RunCommand;
use crate::walk::WalkCommand;
use crate::words::{CommandLine, command_line};
use lw_base::{Clock, Gate, NoMemory, Sink, Source};
use std::alloc::Global;
use std::sync::Wait;

/// Does what the words ask for, and says how it ended.
///
/// Reactor c uses clock c. No command makes reactors yet, so neither a clock nor the gate is called. `run` makes a
/// pool and takes its two buffers, which may wait; nothing else waits. What is said of bytes read and written is said of a source and
/// of a sink that tell them; of others it is said that there are such bytes. Want of memory is the one end that may
/// always come.
pub fn lightrun<R: Wait, I: Source, O: Sink, C: Clock + Drop, G: Gate>(
    rt: &R,
    alloc: Global,
    words: &[String],
    input: &mut I,
    out: &mut O,
    clocks: Vec<C>,
    gate: &G,
) -> Finish
    requires clocks { vec_len clocks ≡ 16 }
    requires goes_on { I.ended input.old ≡ false }
    ensures status { (result.status ≡ end_status result.fault) × (result.status ≤ 6) }
    ensures usage { result.status ≢ 5 → (result.status ≡ 1) ↔ (asked words.now ≡ None) }
    ensures unread { result.status ≡ 1 → input.new ≡ input.old }
    // however it ends
    ensures bounded { IsReadWithin (limit_asked (asked words.now))
        (I.left input.old) (I.left input.new) (input.new ≡ input.old) }
    ensures end { IsEnd (asked words.now)
        (seen I.left I.faults O.holds O.faults input.old input.new out.old out.new) result }
    ensures read_fault { result.status ≡ 3 → Rose (I.faults input.old) (I.faults input.new) }
    ensures unwritten { result.status ≢ 0 → result.status ≢ 4 → (result.told ≡ None) × (out.new ≡ out.old) }
    // a count of faults that rose is told
    ensures sound_read { result.status ≢ 3 → I.faults input.new ≡ I.faults input.old }
    ensures sound_write { result.status ≢ 4 → O.faults out.new ≡ O.faults out.old }
{
    obey(
        rt,
        alloc,
        command_line(alloc, words),
        input,
        out,
        clocks,
        gate,
    )
}

// Does what a command asks for, where there was memory to read the words.
fn obey<R: Wait, I: Source, O: Sink, C: Clock + Drop, G: Gate>(
    rt: &R,
    alloc: Global,
    asked: Result<Option<CommandLine>, NoMemory>,
    input: &mut I,
    out: &mut O,
    clocks: Vec<C>,
    gate: &G,
) -> Finish
    requires clocks { vec_len clocks ≡ 16 }
    requires goes_on { I.ended input.old ≡ false }
    requires served { IfOk asked (λ c. IfSome c Serves) }
    ensures ends { EndsAsked asked (seen I.left I.faults O.holds O.faults input.old input.new out.old out.new)
        result.fault result.told }
    ensures bounded { IfOk asked (λ c. IsReadWithin (limit_asked c)
        (I.left input.old) (I.left input.new) (input.new ≡ input.old)) }
{
    match asked {
        Ok(line) => obey_line(rt, alloc, line, input, out, clocks, gate),
        Err(_) => Finish::failed(Fault::NoMemory),
    }
}

// Does what a command asks for; where there is none the words are usage.
fn obey_line<R: Wait, I: Source, O: Sink, C: Clock + Drop, G: Gate>(
    rt: &R,
    alloc: Global,
    asked: Option<CommandLine>,
    input: &mut I,
    out: &mut O,
    clocks: Vec<C>,
    gate: &G,
) -> Finish
    requires clocks { vec_len clocks ≡ 16 }
    requires goes_on { I.ended input.old ≡ false }
    requires served { IfSome asked Serves }
    ensures ends { Ends asked (seen I.left I.faults O.holds O.faults input.old input.new out.old out.new)
        result.fault result.told }
    ensures bounded { IsReadWithin (limit_asked asked)
        (I.left input.old) (I.left input.new) (input.new ≡ input.old) }
{
    match asked {
        Some(line) => finish_of(rt, alloc, line, input, out, clocks, gate),
        None => Finish::failed(Fault::Usage),
    }
}

// Carries a command out, and says how it ended.
fn finish_of<R: Wait, I: Source, O: Sink, C: Clock + Drop, G: Gate>(
    rt: &R,
    alloc: Global,
    line: CommandLine,
    input: &mut I,
    out: &mut O,
    clocks: Vec<C>,
    gate: &G,
) -> Finish
    requires clocks { vec_len clocks ≡ 16 }
    requires goes_on { I.ended input.old ≡ false }
    requires served { Serves line }
    ensures ends { Ends (Some line) (seen I.left I.faults O.holds O.faults input.old input.new out.old out.new)
        result.fault result.told }
    ensures bounded { GivesAtMost (limit_of line + 1) (I.left input.old) (I.left input.new) }
{
    match line {
        CommandLine::Run(options) => {
            let command = RunCommand::new(options);
            let ended = carry_out(rt, alloc, command, input, out, clocks, gate);
            Finish::of(ended.told, ended.fault)
        }
        CommandLine::Walk => {
            let ended = carry_out(rt, alloc, WalkCommand, input, out, clocks, gate);
            Finish::of(None, ended.fault)
        }
        CommandLine::Check => {
            let ended = carry_out(rt, alloc, CheckCommand, input, out, clocks, gate);
            Finish::of(None, ended.fault)
        }
    }
}
