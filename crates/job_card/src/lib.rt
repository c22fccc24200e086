//! The card of a job: a few lines beside a log that say of which decimals, mesh, steps and log it is, so that the log is taken with no
//! others.
#![tactic(auto)]

mod card;
mod facts;
pub mod laws;
mod marker;
mod parser;
mod words;
mod writer;

pub use card::{Card, FileMark, Version};
pub use facts::{Facts, Part, difference};
pub use marker::{Marker, mark_of_bytes};
pub use parser::{CardFault, read_card};
pub use writer::card_text;
