//! How the lines of a log go to who hears them, one after another.
#![tactic(auto)]

mod copies;
mod kept;
mod listener;
mod writer;

pub use copies::copy_of_line;
pub use kept::KeptLines;
pub use listener::Listener;
pub use writer::write_line;
