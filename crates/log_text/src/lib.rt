//! The lines of a log, and the one spelling of each.
#![tactic(auto)]

mod edit_printer;
mod fields;
mod log_line;
mod printer;

pub use log_line::{Log, LogLine, NewIds, Refusal};
pub use printer::{print_line, why_word};

/// The version that is written, and by which a log is read whose first line names it.
pub const VERSION: u8 = 2;
/// The version of a log that tells which ids vertices and faces have, and by which a log is read whose first line names it.
pub const IDS_VERSION: u8 = 3;
/// The version by which any other log is read.
pub const OLD_VERSION: u8 = 1;
/// The greatest count of meshes, steps, lines and faces.
pub const COUNT_MAX: u32 = u32::MAX;
/// The greatest count of what a refused file has too many of.
pub const SEEN_MAX: u64 = u64::MAX;
/// The corners of a face.
pub const CORNER_MAX: u8 = 3;
/// The greatest number of impulse passes.
pub const PASSES_MAX: u8 = 100;
/// The greatest number of a turn in which two edges are zipped.
pub const TURN_MAX: u8 = 3;
