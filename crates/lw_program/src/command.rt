//! What a command does: the bytes that it takes are read whole, it answers them, and the text of its answer is written.
ghost use Rattle.std.specs.Prelude.{◌≡◌, ◌<◌, ◌^◌, false, None, Some, vec_len, IfOk, IfSome, OnOk};
ghost use Rattle.lw_program.specs.Outside.{seen};
ghost use Rattle.lw_program.specs.Bytes.{IsReadWithin};
ghost use Rattle.lw_program.specs.Commands.{EndsCommand, EndsText, Gets, HasLimit};
ghost use Rattle.lw_program.specs.declared.reading.ReadStop.TheVariants as stop;
ghost use Rattle.lw_base.specs.Outside.{Rose};

use crate::fault::Fault;
use crate::reading::{ReadStop, read_up_to};
use crate::writing::write_all;
use lw_base::{Clock, Gate, Sink, Source};
use std::alloc::Global;
use std::sync::Wait;

/// What a command tells, with the text of it that is to be written.
#[derive(Drop)]
pub struct Told<T> {
    pub value: T,
    pub text: Vec<u8>,
}

/// A command of the program, as its words ask for it.
pub trait Command: Drop {
    ghost use Rattle.std.specs.Prelude.{◌≡◌, ◌<◌, ◌^◌, vec_len, IfOk, IfErr, IfSome};
    ghost use Rattle.lw_program.specs.Commands.{CommandOf, Explains};

    /// What is told of what it did, beside the text.
    type Value;

    // The bytes that it takes, what it answers to them, and which it refuses.
    ghost is: { Self → CommandOf Self.Value };

    /// How many bytes it takes, where it reads any.
    fn limit(&self) -> Option<usize>
        ensures limit { result ≡ (is self.now).limit }
        ensures small { IfSome result (λ limit. limit < 2 ^ 40) };

    /// Does it: what it tells of the bytes, with its text, or why they are refused. Reactor c uses clock c.
    fn answer<R: Wait, C: Clock + Drop, G: Gate>(
        self,
        rt: &R,
        alloc: Global,
        bytes: &[u8],
        clocks: Vec<C>,
        gate: &G,
    ) -> Result<Told<Self::Value>, Fault>
        requires { vec_len clocks ≡ 16 }
        ensures told { IfOk result (λ told. (is self).answers bytes.now told.value told.text.items) }
        ensures fault { IfErr result (Explains (is self) bytes.now) };
}

/// How a command ended.
#[derive(Drop)]
pub struct Outcome<T> {
    /// What was told, where its text or the front of it was written.
    pub told: Option<T>,
    pub fault: Option<Fault>,
}

impl<T> Outcome<T> {
    // Nothing was told.
    fn failed(fault: Fault) -> Self
        ensures told { result.told ≡ None }
        ensures fault { result.fault ≡ Some fault }
    {
        Outcome {
            told: None,
            fault: Some(fault),
        }
    }
}

/// Carries a command out: reads the source for it, and writes the text of its answer, which is whole before its first
/// write.
pub fn carry_out<R: Wait, I: Source, O: Sink, C: Clock + Drop, G: Gate, M: Command>(
    rt: &R,
    alloc: Global,
    command: M,
    input: &mut I,
    out: &mut O,
    clocks: Vec<C>,
    gate: &G,
) -> Outcome<M::Value>
where
    M::Value: Drop,
    requires clocks { vec_len clocks ≡ 16 }
    requires goes_on { I.ended input.old ≡ false }
    ensures ends { EndsCommand (M.is command) (seen I.left I.faults O.holds O.faults input.old input.new out.old out.new) result.fault result.told }
    ensures bounded { IsReadWithin (M.is command).limit (I.left input.old) (I.left input.new) (input.new ≡ input.old) }
{
    match bytes_for(alloc, input, command.limit()) {
        Ok(bytes) => match command.answer(rt, alloc, bytes.as_slice(), clocks, gate) {
            Ok(told) => write_told(told, out),
            Err(fault) => Outcome::failed(fault),
        },
        Err(ReadStop::Fault) => Outcome::failed(Fault::ReadFault),
        Err(ReadStop::NoMemory) => Outcome::failed(Fault::NoMemory),
    }
}

// The bytes of the source up to one past the limit. With no limit nothing is read.
fn bytes_for<I: Source>(
    alloc: Global,
    input: &mut I,
    limit: Option<usize>,
) -> Result<Vec<u8>, ReadStop>
    requires limit { IfSome limit (λ n. n < 2 ^ 40) }
    requires goes_on { I.ended input.old ≡ false }
    ensures bytes { IfOk result (λ v. Gets limit (I.left input.old) v.items (I.left input.new) (input.new ≡ input.old)) }
    ensures bounded { IsReadWithin limit (I.left input.old) (I.left input.new) (input.new ≡ input.old) }
    ensures fault { result ≡ Err stop.Fault → HasLimit limit × Rose (I.faults input.old) (I.faults input.new) }
    ensures sound { OnOk result (I.faults input.new ≡ I.faults input.old) }
    ensures lack { result ≡ Err stop.NoMemory → I.faults input.new ≡ I.faults input.old }
{
    match limit {
        Some(limit) => read_up_to(alloc, input, limit),
        None => Ok(Vec::new(alloc)),
    }
}

// Writes the text of what is told.
fn write_told<O: Sink, T: Drop>(told: Told<T>, out: &mut O) -> Outcome<T>
    ensures { EndsText told.value told.text.items (O.holds out.old) (O.holds out.new) (O.faults out.old) (O.faults out.new) result.fault result.told }
{
    let Told { value, text } = told;
    match write_all(out, text.as_slice()) {
        Ok(()) => Outcome {
            told: Some(value),
            fault: None,
        },
        Err(_) => Outcome {
            told: Some(value),
            fault: Some(Fault::WriteFault),
        },
    }
}
