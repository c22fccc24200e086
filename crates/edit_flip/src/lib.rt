//! The flip of an edge of a mesh.
#![tactic(auto)]

mod flip_test;
pub mod laws;
mod operation;

pub use operation::flip;
