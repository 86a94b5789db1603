//! The ops of one client.
ghost use Rattle.std.specs.Prelude.{◌≡◌, ◌+◌, ◌*◌, ◌<◌, ◌≤◌, ◌++◌, map, IfOk, OnOk};
ghost use Rattle.std.specs.List.{range_with_len};
ghost use Rattle.lw_model.specs.declared.script.Op.TheVariants as op;
ghost use Rattle.rand_pcg.specs.Pcg.{pcg32};
ghost use Rattle.lw_workload.specs.Workload.{bytes_of, op_at, op_drawn, ops_drawn};

use crate::drawing::{CLIENTS, IMAGES};
use lw_base::{Items, NoMemory};
use lw_model::Op;
use rand_core::utils::NextWord;
use rand_pcg::Pcg32;
use std::alloc::Global;

/// The stream of the generator whose words a load is drawn from.
const STREAM: u64 = 54;

/// The ops of a client: a get of each image, those that are drawn for it, and a put of each image.
pub(crate) fn ops(alloc: Global, seed: u64, all: u32, client: u32) -> Result<Vec<Op>, NoMemory>
    requires all { (8 ≤ all) × (all ≤ 32000) }
    requires client { client < 8 }
    ensures { IfOk result (λ v. v.items ≡ ops_drawn seed all client) }
{
    let count = (all + 7 - client) / CLIENTS;
    let mut list = Vec::with_capacity(alloc, (count + 2 * IMAGES) as usize)?;
    get_all(&mut list)?;
    draw(alloc, &mut list, seed, client, count)?;
    put_all(&mut list)?;
    Ok(list)
}

// A get of each image.
fn get_all(list: &mut Vec<Op>) -> Result<(), NoMemory>
    ensures { OnOk result (list.new.items ≡ list.old.items ++ map op.Get (range_with_len 0 4)) }
{
    for image in 0..IMAGES {
        list.push(Op::Get { image })?;
    }
    Ok(())
}

// A put of each image.
fn put_all(list: &mut Vec<Op>) -> Result<(), NoMemory>
    ensures { OnOk result (list.new.items ≡ list.old.items ++ map op.Put (range_with_len 0 4)) }
{
    for image in 0..IMAGES {
        list.push(Op::Put { image })?;
    }
    Ok(())
}

// So many ops that are drawn for a client: of all that are drawn each eighth.
fn draw(
    alloc: Global,
    list: &mut Vec<Op>,
    seed: u64,
    client: u32,
    count: u32,
) -> Result<(), NoMemory>
    requires client { client < 8 }
    requires count { count ≤ 4000 }
    ensures { OnOk result (list.new.items ≡ list.old.items ++ map (λ i. op_at seed (8 * i + client)) (range_with_len 0 count)) }
{
    let mut words = Pcg32::new(seed, STREAM);
    words.advance(2 * client as u64);
    for _ in 0..count {
        list.push(draw_one(alloc, &mut words, client)?)?;
        words.advance(2 * (CLIENTS as u64 - 1));
    }
    Ok(())
}

// The op of a client that the next two words tell.
fn draw_one(alloc: Global, words: &mut Pcg32, client: u32) -> Result<Op, NoMemory>
    requires { client < 8 }
    ensures drawn { IfOk result (λ o. o ≡ op_drawn client (pcg32 words.old).0 (pcg32 (pcg32 words.old).1).0) }
    ensures behind { words.new ≡ (pcg32 (pcg32 words.old).1).1 }
{
    let word = words.next_word();
    let pattern = words.next_word();
    op_of(alloc, client, word, pattern)
}

// The op that two words tell.
fn op_of(alloc: Global, client: u32, word: u32, pattern: u32) -> Result<Op, NoMemory>
    requires { client < 8 }
    ensures { IfOk result (λ o. o ≡ op_drawn client word pattern) }
{
    let image = word % IMAGES;
    let start = 128 * client as u64 + (word / 16 % 128) as u64;
    Ok(match word / 4 % 4 {
        2 => Op::Read {
            image,
            start,
            count: 1,
        },
        3 => Op::Flush { image },
        _ => Op::Write {
            image,
            start,
            count: 1,
            pattern: bytes(alloc, pattern)?,
        },
    })
}

// The four bytes of a word, the most significant first.
fn bytes(alloc: Global, word: u32) -> Result<Items<u8>, NoMemory>
    ensures { IfOk result (λ b. b ≡ bytes_of word) }
{
    let bytes = word.to_be_bytes();
    Ok(Items::from_vec(Vec::from_slice(alloc, &bytes)?))
}
