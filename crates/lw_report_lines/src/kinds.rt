//! The lines of a report, one kind a function: what a line says, where it is one of the kind.
ghost use Rattle.std.specs.Prelude.{◌≡◌, ℕ, List, IfOk, MatchOption, Some, None, option_map, filter, length};
ghost use Rattle.std.specs.List.{list_all};
ghost use Rattle.lw_base.specs.Words.{greatest_u32};
ghost use Rattle.lw_report_lines.specs.LineKinds.{ended, last32, last64, hop_in, visit_in, cast_in, what_in, ran_in, answer_in, did_in, called_in, is_no_capital, last_digits, decoded, bytes_in, replied_in, reply_in, mark, results, is_space, results_in, seen_in};
ghost use Rattle.lw_report_lines.specs.LineParts.{spaced};

use crate::parts::{after, is_end, number, number32, number64, word};
use hex::FromHexError;
use lw_base::{Mark, NoMemory, Tag, What};
use lw_model::{Answer, Called, Did, Hop, Items, Replied, Reply, Seen, SeenBy};
use std::alloc::{AllocError, Global};

pub fn last32(line: &[u8]) -> Option<u32>
    ensures { result ≡ last32 line.now }
{
    let (value, rest) = number32(line)?;
    if is_end(rest) { Some(value) } else { None }
}

pub fn last64(line: &[u8]) -> Option<u64>
    ensures { result ≡ last64 line.now }
{
    let (value, rest) = number64(line)?;
    if is_end(rest) { Some(value) } else { None }
}

fn ended_by(rest: &[u8], answer: Answer) -> Option<Answer>
    ensures { result ≡ ended rest.now answer }
{
    if is_end(rest) { Some(answer) } else { None }
}

/// `hop ROUND REACTOR`
pub fn hop(line: &[u8]) -> Option<Hop>
    ensures { result ≡ hop_in line.now }
{
    let rest = after(line, "hop")?;
    let (round, rest) = number32(rest)?;
    let (reactor, rest) = number32(rest)?;
    if is_end(rest) {
        Some(Hop { round, reactor })
    } else {
        None
    }
}

fn visit(line: &[u8]) -> Option<What>
    ensures { result ≡ visit_in line.now }
{
    let (origin, rest) = number32(line)?;
    let (op, rest) = number32(rest)?;
    let (device, rest) = number32(rest)?;
    if is_end(rest) {
        Some(What::Visit { origin, op, device })
    } else {
        None
    }
}

fn cast(line: &[u8]) -> Option<What>
    ensures { result ≡ cast_in line.now }
{
    let (origin, rest) = number32(line)?;
    let (op, rest) = number32(rest)?;
    if is_end(rest) {
        Some(What::Cast { origin, op })
    } else {
        None
    }
}

// The longer of two words that begin alike is tried first.
fn what(line: &[u8]) -> Option<What>
    ensures { result ≡ what_in line.now }
{
    if let Some(rest) = after(line, " request") {
        Some(What::Request { op: last32(rest)? })
    } else if let Some(rest) = after(line, " reply") {
        Some(What::Reply { op: last32(rest)? })
    } else if let Some(rest) = after(line, " putself") {
        Some(What::PutSelf {
            device: last32(rest)?,
        })
    } else if let Some(rest) = after(line, " visited") {
        Some(What::Visited { op: last32(rest)? })
    } else if let Some(rest) = after(line, " visit") {
        visit(rest)
    } else if let Some(rest) = after(line, " casted") {
        Some(What::Casted { op: last32(rest)? })
    } else if let Some(rest) = after(line, " cast") {
        cast(rest)
    } else if let Some(rest) = after(line, " done") {
        if is_end(rest) { Some(What::Done) } else { None }
    } else if let Some(rest) = after(line, " stop") {
        if is_end(rest) { Some(What::Stop) } else { None }
    } else {
        None
    }
}

/// `ran SENDER NUMBER WHAT`
pub fn ran(line: &[u8]) -> Option<Tag>
    ensures { result ≡ ran_in line.now }
{
    let rest = after(line, "ran")?;
    let (sender, rest) = number32(rest)?;
    let (number, rest) = number64(rest)?;
    let what = what(rest)?;
    Some(Tag {
        sender,
        number,
        what,
    })
}

fn answer(line: &[u8]) -> Option<Answer>
    ensures { result ≡ answer_in line.now }
{
    if let Some(rest) = after(line, " given") {
        Some(Answer::Given {
            ordinal: last64(rest)?,
        })
    } else if let Some(rest) = after(line, " again") {
        Some(Answer::Again {
            ordinal: last64(rest)?,
        })
    } else if let Some(rest) = after(line, " shut") {
        ended_by(rest, Answer::Shut)
    } else if let Some(rest) = after(line, " counted") {
        ended_by(rest, Answer::Counted)
    } else if let Some(rest) = after(line, " deferred") {
        ended_by(rest, Answer::Deferred)
    } else if let Some(rest) = after(line, " nochannel") {
        ended_by(rest, Answer::NoChannel)
    } else if let Some(rest) = after(line, " sent") {
        ended_by(rest, Answer::Sent)
    } else if let Some(rest) = after(line, " waited") {
        ended_by(rest, Answer::Waited)
    } else if let Some(rest) = after(line, " started") {
        ended_by(rest, Answer::Started)
    } else if let Some(rest) = after(line, " began") {
        Some(Answer::Began {
            given: last64(rest)?,
        })
    } else if let Some(rest) = after(line, " already") {
        ended_by(rest, Answer::Already)
    } else if let Some(rest) = after(line, " closed") {
        ended_by(rest, Answer::Closed)
    } else {
        None
    }
}

/// `did AT OP ANSWER`
pub fn did(line: &[u8]) -> Option<Did>
    ensures { result ≡ did_in line.now }
{
    let rest = after(line, "did")?;
    let (at, rest) = number64(rest)?;
    let (op, rest) = number32(rest)?;
    let answer = answer(rest)?;
    Some(Did { at, op, answer })
}

/// `called AT D`, of a device below `images`
pub fn called(line: &[u8], images: u64) -> Option<Called>
    ensures { result ≡ called_in images line.now }
{
    let rest = after(line, "called")?;
    let (at, rest) = number64(rest)?;
    let device = last32(rest)?;
    if (device as u64) < images {
        Some(Called { at, device })
    } else {
        None
    }
}

fn is_no_capital(byte: u8) -> bool
    ensures { result ≡ is_no_capital byte }
{
    !(byte >= b'A' && byte <= b'Z')
}

fn has_no_capital(digits: &[u8]) -> bool
    ensures { result ≡ list_all is_no_capital digits.now }
{
    digits.iter().all(|b| is_no_capital(*b))
}

pub fn last_digits(line: &[u8]) -> Option<&[u8]>
    ensures { MatchOption result (last_digits line.now ≡ None) (λ w. last_digits line.now ≡ Some w.now) }
{
    let (digits, rest) = word(line)?;
    if is_end(rest) && has_no_capital(digits) {
        Some(digits)
    } else {
        None
    }
}

// The bytes of hexadecimal digits, where that is what they are.
pub fn decoded(alloc: Global, digits: &[u8]) -> Result<Option<Items<u8>>, NoMemory>
    ensures { IfOk result (λ o. o ≡ decoded digits.now) }
{
    match hex::decode(alloc, digits) {
        Ok(bytes) => Ok(Some(Items::from_vec(bytes))),
        Err(FromHexError::OutOfMemory) => Err(AllocError),
        Err(_) => Ok(None),
    }
}

fn bytes(alloc: Global, line: &[u8]) -> Result<Option<Items<u8>>, NoMemory>
    ensures { IfOk result (λ o. o ≡ bytes_in line.now) }
{
    let Some(digits) = last_digits(line) else {
        return Ok(None)
    };
    match decoded(alloc, digits)? {
        Some(bytes) => if bytes.len() > 0 {
            Ok(Some(bytes))
        } else {
            Ok(None)
        },
        None => Ok(None),
    }
}

fn replied(alloc: Global, line: &[u8]) -> Result<Option<Replied>, NoMemory>
    ensures { IfOk result (λ o. o ≡ replied_in line.now) }
{
    if let Some(rest) = after(line, " ok") {
        Ok(if is_end(rest) {
            Some(Replied::Ok)
        } else {
            None
        })
    } else if let Some(rest) = after(line, " bytes") {
        match bytes(alloc, rest)? {
            Some(bytes) => Ok(Some(Replied::Bytes(bytes))),
            None => Ok(None),
        }
    } else if let Some(rest) = after(line, " writes") {
        match last64(rest) {
            Some(writes) => Ok(Some(Replied::Writes(writes))),
            None => Ok(None),
        }
    } else {
        Ok(None)
    }
}

/// `reply OP ANSWER`
pub fn reply(alloc: Global, line: &[u8]) -> Result<Option<Reply>, NoMemory>
    ensures { IfOk result (λ o. o ≡ reply_in line.now) }
{
    let Some(rest) = after(line, "reply") else {
        return Ok(None)
    };
    let Some((op, rest)) = number32(rest) else {
        return Ok(None)
    };
    match replied(alloc, rest)? {
        Some(answer) => Ok(Some(Reply { op, answer })),
        None => Ok(None),
    }
}

fn mark(line: &[u8]) -> Option<(Mark, &[u8])>
    ensures { MatchOption result (mark line.now ≡ None) (λ p. mark line.now ≡ Some (p.0, p.1.now)) }
{
    let (thread, rest) = number32(line)?;
    let rest = after(rest, ":")?;
    let (submitted, rest) = number(rest, u64::MAX)?;
    Some((Mark { thread, submitted }, rest))
}

fn is_space(byte: u8) -> bool
    ensures { result ≡ is_space byte }
{
    byte == b' '
}

fn spaces(line: &[u8]) -> usize
    ensures { result ≡ length (filter is_space line.now) }
{
    line.iter().copied().filter(|b| is_space(*b)).count()
}

fn marks(alloc: Global, count: usize, line: &[u8]) -> Result<Option<Items<Mark>>, NoMemory>
    ensures { IfOk result (λ o. o ≡ results mark count line.now) }
{
    let mut items = Vec::new(alloc);
    let mut rest = line;
    for _ in 0..count {
        match mark(rest) {
            Some((item, behind)) => {
                items.push(item)?;
                rest = behind;
            }
            None => return Ok(None),
        }
    }
    Ok(if is_end(rest) {
        Some(Items::from_vec(items))
    } else {
        None
    })
}

fn threads(alloc: Global, count: usize, line: &[u8]) -> Result<Option<Items<u32>>, NoMemory>
    ensures { IfOk result (λ o. o ≡ results (spaced greatest_u32) count line.now) }
{
    let mut items = Vec::new(alloc);
    let mut rest = line;
    for _ in 0..count {
        match number32(rest) {
            Some((item, behind)) => {
                items.push(item)?;
                rest = behind;
            }
            None => return Ok(None),
        }
    }
    Ok(if is_end(rest) {
        Some(Items::from_vec(items))
    } else {
        None
    })
}

fn results(alloc: Global, line: &[u8]) -> Result<Option<SeenBy>, NoMemory>
    ensures { IfOk result (λ o. o ≡ results_in line.now) }
{
    let count = spaces(line);
    if count == 0 || mark(line).is_some() {
        match marks(alloc, count, line)? {
            Some(marks) => Ok(Some(SeenBy::Visit(marks))),
            None => Ok(None),
        }
    } else {
        match threads(alloc, count, line)? {
            Some(threads) => Ok(Some(SeenBy::Cast(threads))),
            None => Ok(None),
        }
    }
}

/// `seen OP RESULTS`
pub fn seen(alloc: Global, line: &[u8]) -> Result<Option<Seen>, NoMemory>
    ensures { IfOk result (λ o. o ≡ seen_in line.now) }
{
    let Some(rest) = after(line, "seen") else {
        return Ok(None)
    };
    let Some((op, rest)) = number32(rest) else {
        return Ok(None)
    };
    match results(alloc, rest)? {
        Some(results) => Ok(Some(Seen { op, results })),
        None => Ok(None),
    }
}
