//! The program `lightrun` but for its `main`: the top call over any source, sink, clocks and gate, and the fault that ends it.
#![tactic(auto)]

mod asked;
mod check;
mod command;
mod fault;
mod finish;
mod program;
mod reading;
mod run;
mod settings;
mod walk;
mod words;
mod writing;

pub use fault::Fault;
pub use finish::Finish;
pub use program::lightrun;
