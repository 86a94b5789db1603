//! Tests of the pool of read buffers, and of images that are read into them, through public calls.
#![tactic(auto)]

#[cfg(test)]
mod images;
#[cfg(test)]
mod pools;
