//! The files of a run as its user knows them: a desk that keeps the texts that are read, so that it can be told afterwards what was
//! refused in them, and that overwrites none without a word; a sink that notes which line of the log took a vertex away; what is told a
//! user who may be mistaken though nothing was refused; where standard output may not go; and a line that tells how far a run has come.
#![tactic(auto)]

mod exact_desk;
mod life_line;
mod log_watch;
mod names;
mod outputs;
mod progress_lines;
mod rounding;
mod stored_lists;
mod system_output;
mod texts;
mod user_desk;
mod warning;
mod watched_sink;

pub use exact_desk::ExactDesk;
pub use life_line::{LifeLine, Watcher};
pub use log_watch::{EndedVertices, LogWatch};
pub use names::{Names, Work, cubes_of, name_of, names_of};
pub use outputs::output_reason_of;
pub use progress_lines::tell_cubes;
pub use rounding::{lists_in, rounded};
pub use system_output::SystemOutput;
pub use texts::Texts;
pub use user_desk::{SystemDesk, UserDesk};
pub use warning::warnings;
pub use watched_sink::WatchedSink;
