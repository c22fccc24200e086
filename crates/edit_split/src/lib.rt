//! The split of an edge of a mesh.
#![tactic(auto)]

mod acts;
pub mod laws;
mod operation;

pub use acts::{apply_split, is_split_over, split_point};
pub use operation::split;
