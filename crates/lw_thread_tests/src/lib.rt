//! Tests of light threads through public calls, one module a subject. A crate with tests is proved twice, so the crate of light
//! threads keeps none.
#![tactic(auto)]

#[cfg(test)]
mod by_hand;
#[cfg(test)]
mod making;
#[cfg(test)]
mod players;
#[cfg(test)]
mod plays;
#[cfg(test)]
mod polls;
#[cfg(test)]
mod sends;
