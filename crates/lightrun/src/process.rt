//! What the process brings and takes: the words of its command line, clocks and its exit status.
ghost use Rattle.std.specs.Prelude.{◌≡◌, ◌⊎◌, drop, vec_len, IfOk, IfErr};
ghost use Rattle.std.specs.Process.{exit_status};
ghost use Rattle.std.specs.Vec.Iter.{into_iter_items};
ghost use Rattle.lw_program.specs.declared.fault.Fault.TheVariants as fault;

use crate::adapters::TickClock;
use lw_base::NoMemory;
use lw_program::{Fault, Finish};
use std::alloc::Global;
use std::process::ExitCode;
use std::{env, io};

/// The words of the command line, the program's name first. A word that isn't text is none of the command table.
pub fn args_of<R: env::Env + Alloc<A = Global>>(rt: &R) -> Result<Vec<String>, Fault>
    ensures { IfErr result (λ f. (f ≡ fault.NoMemory) ⊎ (f ≡ fault.Usage)) }
{
    match env::args(rt) {
        Ok(args) => collected(rt.alloc(), args).map_err(|_| Fault::NoMemory),
        Err(error) => {
            if error.kind() == io::ErrorKind::OutOfMemory {
                Err(Fault::NoMemory)
            } else {
                Err(Fault::Usage)
            }
        }
    }
}

// The arguments that are left to give, in their order.
fn collected(alloc: Global, args: env::Args) -> Result<Vec<String>, NoMemory>
    ensures { IfOk result (λ words. words.items ≡ into_iter_items args) }
{
    args.collect(alloc)
}

/// The words behind the program's name.
pub fn words_of(args: &[String]) -> &[String]
    ensures { result.now ≡ drop 1 args.now }
{
    match args {
        [] => args,
        [_, words @ ..] => words,
    }
}

/// A clock for each reactor that there may be.
pub fn clocks_of<R: std::time::Clock + Copy>(
    alloc: Global,
    rt: R,
) -> Result<Vec<TickClock<R>>, NoMemory>
    ensures { IfOk result (λ v. vec_len v ≡ 16) }
{
    let mut clocks = Vec::new(alloc);
    for _made in 0..16u32 {
        clocks.push(TickClock::new(rt))?;
    }
    Ok(clocks)
}

/// What the process ends with.
pub fn exit_code(finish: &Finish) -> ExitCode
    ensures { exit_status result ≡ finish.now.status }
{
    ExitCode::from(finish.status)
}
