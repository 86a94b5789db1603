//! The script that is drawn from a number.
ghost use Rattle.std.specs.Prelude.{◌≡◌, ◌<◌, ◌≤◌, map, IfOk};
ghost use Rattle.std.specs.List.{range_with_len};
ghost use Rattle.lw_workload.specs.Workload.{client_drawn, image_drawn, script_drawn};

use crate::names::name;
use crate::ops::ops;
use lw_base::{Items, NoMemory};
use lw_model::{ClientOf, ImageOf, Script};
use std::alloc::Global;

/// How many images a load has.
pub(crate) const IMAGES: u32 = 4;

/// How many clients a load has.
pub(crate) const CLIENTS: u32 = 8;

/// The script of a load of so many ops, 8 to 32,000, which is drawn from the seed.
///
/// It has four images of 1,024 blocks of 512 bytes and eight clients. The ops are dealt to the clients in turn; each gets a channel
/// of each image before its ops and puts it behind them. Every client writes and reads blocks of its own alone.
pub fn load_script(alloc: Global, seed: u64, ops: u32) -> Result<Script, NoMemory>
    requires { (8 ≤ ops) × (ops ≤ 32000) }
    ensures { IfOk result (λ s. s ≡ script_drawn seed ops) }
{
    Ok(Script {
        images: Items::from_vec(images(alloc)?),
        clients: Items::from_vec(clients(alloc, seed, ops)?),
        small: 32,
        large: 4,
    })
}

fn images(alloc: Global) -> Result<Vec<ImageOf>, NoMemory>
    ensures { IfOk result (λ v. v.items ≡ map image_drawn (range_with_len 0 4)) }
{
    let mut list = Vec::with_capacity(alloc, IMAGES as usize)?;
    for image in 0..IMAGES {
        list.push(one_image(alloc, image)?)?;
    }
    Ok(list)
}

fn one_image(alloc: Global, image: u32) -> Result<ImageOf, NoMemory>
    ensures { IfOk result (λ i. i ≡ image_drawn image) }
{
    Ok(ImageOf {
        name: name(alloc, 'i', image)?,
        block: 512,
        blocks: 1024,
    })
}

fn clients(alloc: Global, seed: u64, ops: u32) -> Result<Vec<ClientOf>, NoMemory>
    requires { (8 ≤ ops) × (ops ≤ 32000) }
    ensures { IfOk result (λ v. v.items ≡ map (client_drawn seed ops) (range_with_len 0 8)) }
{
    let mut list = Vec::with_capacity(alloc, CLIENTS as usize)?;
    for client in 0..CLIENTS {
        list.push(one_client(alloc, seed, ops, client)?)?;
    }
    Ok(list)
}

fn one_client(alloc: Global, seed: u64, all: u32, client: u32) -> Result<ClientOf, NoMemory>
    requires all { (8 ≤ all) × (all ≤ 32000) }
    requires client { client < 8 }
    ensures { IfOk result (λ c. c ≡ client_drawn seed all client) }
{
    Ok(ClientOf {
        name: name(alloc, 'c', client)?,
        depth: 8,
        ops: Items::from_vec(ops(alloc, seed, all, client)?),
    })
}
