//! Tests of the program's top call, over a source and a sink in memory, one module a subject.
#![tactic(auto)]

#[cfg(test)]
mod calls;
#[cfg(test)]
mod checks;
#[cfg(test)]
mod faults;
#[cfg(test)]
mod runs;
#[cfg(test)]
mod walks;
#[cfg(test)]
mod words;
