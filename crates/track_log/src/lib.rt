//! What the commands share that read a log: the mesh and the log are fetched and read, the log's lines are taken one after another,
//! and each refusal has its line.
#![tactic(auto)]

mod inputs;
mod output;
mod refusal;
mod tested_lines;

pub use inputs::{FetchedLog, PreparedLog, Texts, fetch_log, prepare_log, read_texts, test_mesh};
pub use output::{put_text, refuse};
pub use refusal::LogRefusal;
pub use tested_lines::take_tested;
