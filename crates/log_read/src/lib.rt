//! How the lines of a log are read from their one spelling, and what holds of that.
#![tactic(auto)]

mod edit_lines;
mod edit_values;
mod first_fault;
pub mod laws;
mod lines;
mod listed;
mod log_reader;
mod parser;
mod refusals;
mod values;

pub use log_reader::LogReader;
pub use parser::read_log;
pub use values::pair_at;
