//! Judges the rule on answers: whether each line that tells what an op was answered fits what its thread did before.
#![tactic(auto)]

mod answers;
mod completions;
mod dones;
mod fits;
mod parts;
mod thread_answers;
mod unanswered;

pub use answers::Answering;
pub use thread_answers::answers_of_thread;
