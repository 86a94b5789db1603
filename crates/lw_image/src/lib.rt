//! The images that the owners keep: blocks of bytes in memory, in which a write repeats a pattern.
#![tactic(auto)]

mod fill;
mod image;

pub use image::Image;
