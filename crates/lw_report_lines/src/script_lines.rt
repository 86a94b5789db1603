//! The lines of a report's script.
ghost use Rattle.std.specs.Prelude.{◌≡◌, IfOk};
ghost use Rattle.lw_model.specs.ScriptShape.{pattern_of};
ghost use Rattle.lw_report_lines.specs.LineKinds.{name_of, image_in, client_in, write_in, read_in, form_in, plain_form_in, op_in};

use crate::kinds::{decoded, last_digits, last32, last64};
use crate::parts::{after, is_end, number32, number64, word};
use lw_base::NoMemory;
use lw_model::{ImageOf, Items, Op, Text};
use std::alloc::Global;
use std::str;

/// `client NAME DEPTH OPS`
#[derive(Drop)]
pub struct ClientHead {
    pub name: Text,
    pub depth: u32,
    /// How many ops the client has.
    pub ops: u64,
}

// A word that isn't UTF-8 reads as the empty name: the rule on names refuses both.
fn name_of(alloc: Global, word: &[u8]) -> Result<Text, NoMemory>
    ensures { IfOk result (λ t. t ≡ name_of word.now) }
{
    match str::from_utf8(word) {
        Ok(name) => Ok(Text::from_string(String::from_str(alloc, name)?)),
        Err(_) => Ok(Text::from_string(String::new(alloc))),
    }
}

/// `image NAME BLOCK BLOCKS`
pub fn image(alloc: Global, line: &[u8]) -> Result<Option<ImageOf>, NoMemory>
    ensures { IfOk result (λ o. o ≡ image_in line.now) }
{
    let Some(rest) = after(line, "image") else {
        return Ok(None)
    };
    let Some((name, rest)) = word(rest) else {
        return Ok(None)
    };
    let Some((block, rest)) = number32(rest) else {
        return Ok(None)
    };
    let Some(blocks) = last64(rest) else {
        return Ok(None)
    };
    Ok(Some(ImageOf {
        name: name_of(alloc, name)?,
        block,
        blocks,
    }))
}

/// `client NAME DEPTH OPS`
pub fn client(alloc: Global, line: &[u8]) -> Result<Option<ClientHead>, NoMemory>
    ensures { IfOk result (λ o. o ≡ client_in line.now) }
{
    let Some(rest) = after(line, "client") else {
        return Ok(None)
    };
    let Some((name, rest)) = word(rest) else {
        return Ok(None)
    };
    let Some((depth, rest)) = number32(rest) else {
        return Ok(None)
    };
    let Some(ops) = last64(rest) else {
        return Ok(None)
    };
    Ok(Some(ClientHead {
        name: name_of(alloc, name)?,
        depth,
        ops,
    }))
}

// The bytes of hexadecimal digits, and none of any other word.
fn pattern(alloc: Global, digits: &[u8]) -> Result<Items<u8>, NoMemory>
    ensures { IfOk result (λ p. p ≡ pattern_of digits.now) }
{
    match decoded(alloc, digits)? {
        Some(bytes) => Ok(bytes),
        None => Ok(Items::new(alloc)),
    }
}

fn write(alloc: Global, line: &[u8]) -> Result<Option<Op>, NoMemory>
    ensures { IfOk result (λ o. o ≡ write_in line.now) }
{
    let Some((image, rest)) = number32(line) else {
        return Ok(None)
    };
    let Some((start, rest)) = number64(rest) else {
        return Ok(None)
    };
    let Some((count, rest)) = number64(rest) else {
        return Ok(None)
    };
    let Some(digits) = last_digits(rest) else {
        return Ok(None)
    };
    Ok(Some(Op::Write {
        image,
        start,
        count,
        pattern: pattern(alloc, digits)?,
    }))
}

fn read(line: &[u8]) -> Option<Op>
    ensures { result ≡ read_in line.now }
{
    let (image, rest) = number32(line)?;
    let (start, rest) = number64(rest)?;
    let count = last64(rest)?;
    Some(Op::Read {
        image,
        start,
        count,
    })
}

fn form(alloc: Global, line: &[u8]) -> Result<Option<Op>, NoMemory>
    ensures { IfOk result (λ o. o ≡ form_in line.now) }
{
    if let Some(rest) = after(line, " write") {
        write(alloc, rest)
    } else {
        Ok(plain_form(line))
    }
}

// The forms of an op without a pattern.
fn plain_form(line: &[u8]) -> Option<Op>
    ensures { result ≡ plain_form_in line.now }
{
    if let Some(rest) = after(line, " get") {
        Some(Op::Get {
            image: last32(rest)?,
        })
    } else if let Some(rest) = after(line, " put") {
        Some(Op::Put {
            image: last32(rest)?,
        })
    } else if let Some(rest) = after(line, " read") {
        read(rest)
    } else if let Some(rest) = after(line, " flush") {
        Some(Op::Flush {
            image: last32(rest)?,
        })
    } else if let Some(rest) = after(line, " wait") {
        Some(Op::Wait {
            ticks: last64(rest)?,
        })
    } else if let Some(rest) = after(line, " visit") {
        Some(Op::Visit {
            image: last32(rest)?,
        })
    } else if let Some(rest) = after(line, " each") {
        if is_end(rest) { Some(Op::Each) } else { None }
    } else if let Some(rest) = after(line, " unregister") {
        Some(Op::Unregister {
            image: last32(rest)?,
        })
    } else {
        None
    }
}

/// `op FORM`
pub fn op(alloc: Global, line: &[u8]) -> Result<Option<Op>, NoMemory>
    ensures { IfOk result (λ o. o ≡ op_in line.now) }
{
    match after(line, "op") {
        Some(rest) => form(alloc, rest),
        None => Ok(None),
    }
}
