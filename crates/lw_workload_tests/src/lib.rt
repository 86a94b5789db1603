//! Tests of drawn scripts through public calls. A crate with tests is proved twice, so the crate below keeps none.
#![tactic(auto)]

#[cfg(test)]
mod scripts;
