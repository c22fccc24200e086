//! A mesh file is stored in another format: the command `convert`.
#![tactic(auto)]

mod command;
mod file_lists;
mod formats;

pub use command::convert;
pub use formats::read_lists;
