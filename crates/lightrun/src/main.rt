//! The program `lightrun`: its words, standard input and output, sixteen clocks and an open gate, given to the top call.
#![tactic(auto)]

mod adapters;
mod process;

use adapters::{StdSink, StdSource};
use lw_base::OpenGate;
use lw_program::{Fault, Finish, lightrun};
use process::{args_of, clocks_of, exit_code, words_of};
use std::io;
use std::process::ExitCode;

fn main(rt: HostRuntime) -> io::Result<ExitCode> {
    let mut input = StdSource::new(rt.stdin());
    let mut out = StdSink::new(rt.stdout());
    let finish = match args_of(&rt) {
        Ok(args) => match clocks_of(rt.alloc(), rt) {
            Ok(clocks) => lightrun(
                &rt,
                rt.alloc(),
                words_of(args.as_slice()),
                &mut input,
                &mut out,
                clocks,
                &OpenGate,
            ),
            Err(_) => Finish::failed(Fault::NoMemory),
        },
        Err(fault) => Finish::failed(fault),
    };
    if let Some(fault) = &finish.fault {
        // a line that can't be printed changes no status
        let _unprinted = eprintln!(rt; "{fault}");
    }
    Ok(exit_code(&finish))
}
