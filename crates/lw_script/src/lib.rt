//! A script, read from the bytes of its text.
#![tactic(auto)]

mod build;
mod form;
mod images;
mod read;
mod shape;
mod value;

pub use lw_model::{ClientOf, ImageOf, Items, Op, Script, ScriptRefusal, Text};
pub use read::read_script;
