//! A component of a mesh is collapsed away.
#![tactic(auto)]

mod collapses;
mod drop;
pub mod laws;
mod rounds;

pub use drop::drop_collapses;
