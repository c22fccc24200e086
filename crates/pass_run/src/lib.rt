//! Passes over a mesh: each candidate in turn, with the line of each edit.
#![tactic(auto)]

mod candidates;
mod chooser;
mod edge_pass;
mod edits;
mod faults;
pub mod laws;
mod lengths;
mod midpoint_cells;
mod near_edges;
mod passes;
mod places;
mod sizing_pass;
mod terms;
mod turns;
mod vertex_pass;
mod vertex_rims;

pub use edits::{Answers, EditTerms, edits_to};
pub use faults::PassFault;
pub use passes::{PassCount, pass, pass_to};
pub use sizing_pass::{fit_pass, fit_to};
pub use terms::{PassTerms, Turns};
