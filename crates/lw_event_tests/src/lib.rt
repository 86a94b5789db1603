//! Tests of events and sleepers through public calls, one module a subject. A crate with tests is proved twice, so the crate below
//! keeps none.
#![tactic(auto)]

#[cfg(test)]
mod desks;
#[cfg(test)]
mod quiet;
#[cfg(test)]
mod sleeping;
