//! Tests of devices through public calls, one module a subject. A crate with tests is proved twice, so the crates below keep
//! none but those that need their private parts.
#![tactic(auto)]

#[cfg(test)]
mod channels;
#[cfg(test)]
mod device_latches;
#[cfg(test)]
mod devices;
#[cfg(test)]
mod visits;
