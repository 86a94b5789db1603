//! Tests through public calls, one module a subject. A crate with tests is proved twice, so the crates below keep none
//! but those that need their private parts.
#![tactic(auto)]

#[cfg(test)]
mod any_rings;
#[cfg(test)]
mod items;
#[cfg(test)]
mod memory;
#[cfg(test)]
mod places;
#[cfg(test)]
mod ring_latches;
#[cfg(test)]
mod rings;
#[cfg(test)]
mod worlds;
