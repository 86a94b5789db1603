//! All of a source, up to a limit.
ghost use Rattle.std.specs.Prelude.{◌≡◌, ◌+◌, ◌^◌, ◌<◌, ◌≤◌, ◌==◌, false, [], ◌++◌, length, vec_len, take, IfOk, IfSome, OnOk};
ghost use Rattle.lw_base.specs.Outside.{Rose, HasGiven};
ghost use Rattle.lw_program.specs.Bytes.{GivesAtMost, GivesMore, IsReadUpTo};
ghost use Rattle.lw_program.specs.declared.reading.ReadStop.TheVariants.{Fault, NoMemory};

use lw_base::{NoMemory, Source};
use std::alloc::Global;
use std::cmp;

/// How many bytes one read asks for at most.
const PIECE: usize = 65_536;

/// Why reading stopped before the end and before the limit.
#[derive(Copy, Clone, PartialEq, Eq, Debug)]
pub enum ReadStop {
    /// The source failed.
    Fault,
    NoMemory,
}

impl From<NoMemory> for ReadStop {
    ghost use Rattle.std.specs.Prelude.{◌≡◌};
    ghost use Rattle.lw_program.specs.declared.reading.ReadStop.TheVariants.{NoMemory};

    ghost from_gives = { λ _ e. e ≡ NoMemory };

    fn from(_error: NoMemory) -> ReadStop {
        ReadStop::NoMemory
    }
}

/// The bytes of a source, read to its end, or its first bytes up to one past `limit`.
///
/// However it ends, no more than that is read. Each read that isn't the end takes at least one byte, so reading ends.
pub fn read_up_to<I: Source>(
    alloc: Global,
    input: &mut I,
    limit: usize,
) -> Result<Vec<u8>, ReadStop>
    requires limit { limit < 2 ^ 40 }
    requires goes_on { I.ended input.old ≡ false }
    ensures bytes { IfOk result (λ v. IsReadUpTo limit (I.left input.old) v.items (I.left input.new)) }
    ensures bounded { GivesAtMost (limit + 1) (I.left input.old) (I.left input.new) }
    ensures fault { result ≡ Err Fault → Rose (I.faults input.old) (I.faults input.new) }
    ensures sound { OnOk result (I.faults input.new ≡ I.faults input.old) }
    ensures lack { result ≡ Err NoMemory → I.faults input.new ≡ I.faults input.old }
{
    let mut piece = buffer(alloc)?;
    let mut bytes = Vec::new(alloc);
    while bytes.len() <= limit {
        let room = limit + 1 - bytes.len();
        if read_next(input, &mut bytes, &mut piece, room)? == 0 {
            return Ok(bytes);
        }
    }
    Ok(bytes)
}

fn buffer(alloc: Global) -> Result<Vec<u8>, NoMemory>
    ensures { IfOk result (λ v. 0 < vec_len v) }
{
    vec![in alloc; 0u8; PIECE]
}

// One read of at most `room` bytes, which are put behind those so far.
fn read_next<I: Source>(
    input: &mut I,
    bytes: &mut Vec<u8>,
    piece: &mut Vec<u8>,
    room: usize,
) -> Result<usize, ReadStop>
    requires room { (0 < room) × (0 < vec_len piece.old) }
    requires goes_on { I.ended input.old ≡ false }
    ensures count { IfOk result (λ n. (n ≤ room) × (vec_len bytes.new ≡ vec_len bytes.old + n)) }
    ensures piece { vec_len piece.new ≡ vec_len piece.old }
    ensures ended { IfOk result (λ n. I.ended input.new ≡ (n == 0)) }
    ensures more { OnOk result (GivesMore (I.left input.old) bytes.old.items bytes.new.items (I.left input.new)) }
    ensures bounded { GivesAtMost room (I.left input.old) (I.left input.new) }
    ensures end { IfOk result (λ n. n ≡ 0 → IfSome (I.left input.old) (λ rest. rest ≡ [])) }
    ensures fault { result ≡ Err Fault → Rose (I.faults input.old) (I.faults input.new) }
    ensures sound { OnOk result (I.faults input.new ≡ I.faults input.old) }
    ensures lack { result ≡ Err NoMemory → I.faults input.new ≡ I.faults input.old }
{
    let most = cmp::min(piece.len(), room);
    read_piece(input, bytes, &mut piece[..most])
}

// One read, whose bytes are put behind those so far.
fn read_piece<I: Source>(
    input: &mut I,
    bytes: &mut Vec<u8>,
    piece: &mut [u8],
) -> Result<usize, ReadStop>
    requires room { 0 < length piece.old }
    requires goes_on { I.ended input.old ≡ false }
    ensures count { IfOk result (λ n. (n ≤ length piece.old) × (vec_len bytes.new ≡ vec_len bytes.old + n)) }
    ensures ended { IfOk result (λ n. I.ended input.new ≡ (n == 0)) }
    ensures more { IfOk result (λ n. bytes.new.items ≡ bytes.old.items ++ take n piece.new) }
    ensures given { IfOk result (λ n. HasGiven (I.left input.old) (take n piece.new) (I.left input.new)) }
    ensures bounded { GivesAtMost (length piece.old) (I.left input.old) (I.left input.new) }
    ensures end { IfOk result (λ n. n ≡ 0 → IfSome (I.left input.old) (λ rest. rest ≡ [])) }
    ensures fault { result ≡ Err Fault → Rose (I.faults input.old) (I.faults input.new) }
    ensures sound { OnOk result (I.faults input.new ≡ I.faults input.old) }
    ensures lack { result ≡ Err NoMemory → I.faults input.new ≡ I.faults input.old }
{
    match input.read(piece) {
        Ok(count) => {
            bytes.extend_from_slice(&piece[..count])?;
            Ok(count)
        }
        Err(_) => Err(ReadStop::Fault),
    }
}
