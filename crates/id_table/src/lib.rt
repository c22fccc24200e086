//! A table by ids that rise: one list with tombstones, found by binary search. What is taken out of it can be buried, and is
//! put back with no memory.
#![tactic(auto)]

mod hints;
mod rows;

pub use rows::Rows;
