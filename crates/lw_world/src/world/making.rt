//! The first state.
ghost use Rattle.std.specs.Prelude.{◌≡◌, ◌+◌, ◌%◌, ◌<◌, ◌≤◌, IfOk, replicate, false};
ghost use Rattle.lw_world.specs.declared.world_state.Standing.TheVariants.{List};
ghost use Rattle.lw_world.specs.declared.world_state.Stage.TheVariants.{Open};
ghost use Rattle.lw_world.specs.Register.{tabulate};
ghost use Rattle.lw_world.specs.World.{IsKept, first_state};

use crate::register::Register;
use crate::tally::Tally;
use crate::world::World;
use crate::world_state::{Stage, Standing};
use lw_base::NoMemory;
use std::alloc::Global;

// Thread t stands in the list of reactor t mod `reactors`.
fn first_standing(
    alloc: Global,
    threads: u32,
    reactors: u32,
) -> Result<Register<Standing>, NoMemory>
    requires threads { threads ≤ 81 }
    requires reactors { 0 < reactors }
    ensures { IfOk result (λ r. r ≡ record { states = tabulate threads (λ t. List (t % reactors)); keys = reactors + 1 }) }
{
    let mut register = Register::new(alloc, reactors as usize + 1)?;
    for thread in 0..threads {
        register.push(Standing::List {
            reactor: thread % reactors,
        })?;
    }
    Ok(register)
}

fn first_stages(alloc: Global, threads: u32, devices: u32) -> Result<Register<Stage>, NoMemory>
    requires { devices ≤ 16 }
    ensures { IfOk result (λ r. r ≡ record { states = tabulate devices (λ d. Open); keys = threads + 1 }) }
{
    let mut register = Register::new(alloc, threads as usize + 1)?;
    for _ in 0..devices {
        register.push(Stage::Open)?;
    }
    Ok(register)
}

fn all_awake(alloc: Global, reactors: u32) -> Result<Vec<bool>, NoMemory>
    ensures { IfOk result (λ v. v.items ≡ replicate reactors false) }
{
    vec![in alloc; false; reactors as usize]
}

impl World {
    /// Before any event.
    pub fn new(alloc: Global, threads: u32, reactors: u32, devices: u32) -> Result<World, NoMemory>
        requires some_threads { 1 ≤ threads }
        requires threads { threads ≤ 81 }
        requires some_reactors { 1 ≤ reactors }
        requires reactors { reactors ≤ 16 }
        requires devices { devices ≤ 16 }
        ensures first { IfOk result (λ w. w ≡ first_state threads reactors devices) }
        ensures kept { IfOk result (λ w. IsKept w) }
    {
        let (rows, columns) = (threads as usize, devices as usize);
        let standing = first_standing(alloc, threads, reactors)?;
        let stage = first_stages(alloc, threads, devices)?;
        let sent = Tally::new(alloc, rows, rows)?;
        let run = Tally::new(alloc, rows, rows)?;
        let channels = Tally::new(alloc, rows, columns)?;
        let visits = Tally::new(alloc, rows, columns)?;
        let asleep = all_awake(alloc, reactors)?;
        Ok(World {
            threads,
            reactors,
            devices,
            sent,
            run,
            standing,
            channels,
            visits,
            stage,
            asleep,
        })
    }
}
