//! What is wrong with a mesh file: the command `check`.
#![tactic(auto)]

mod command;
mod fault;
mod file_lists;
mod list_faults;
mod report;

pub use command::check;
pub use fault::{FAULTS_MAX, Fault};
