//! Tests of the scheduler's plan and of its rounds through public calls, one module a subject. A crate with tests is proved
//! twice, so the crates below keep none.
#![tactic(auto)]

#[cfg(test)]
mod balancing;
#[cfg(test)]
mod loads;
#[cfg(test)]
mod masked;
#[cfg(test)]
mod plans;
#[cfg(test)]
mod rounds;
