//! Tests of pollers and load figures through public calls, one module a subject. A crate with tests is proved twice, so the
//! crates below keep none but those that need their private parts.
#![tactic(auto)]

#[cfg(test)]
mod loads;
#[cfg(test)]
mod pollers;
