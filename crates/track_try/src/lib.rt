//! A generated job is made, run over sides that only count, and summed up.
#![tactic(auto)]

mod command;
mod counted_run;
pub mod laws;
mod summary_text;

pub use command::try_cubes;
