//! The zip of two edges of a mesh: their faces are dropped, and the two openings are joined by a tunnel.
#![tactic(auto)]

mod attempts;
mod edges;
pub mod laws;
mod new_faces;
mod operation;
mod ready;
mod tunnel;
mod turns;

pub use operation::zip;
pub use ready::zip_ready;
