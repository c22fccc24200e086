//! The generated job: separate cubes in rows, which move for three steps and are then split.
#![tactic(auto)]

mod job;
pub mod laws;
mod lists;
mod steps;

pub use job::{Job, cubes};

/// The greatest number of cubes in a row.
pub const ROW_MAX: u8 = 12;
