//! The meshes of a log, made again from the mesh that it begins with and its lines alone, and stored as they were saved.
#![tactic(auto)]

mod command;
pub mod laws;
mod mesh_files;

pub use command::replay;
