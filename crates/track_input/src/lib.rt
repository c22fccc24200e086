//! What the words of a command line ask for, and what is read for it: files are fetched from a desk, their texts are read, and the
//! mesh is found to be of good shape, or the first refusal that applies is found.
#![tactic(auto)]

mod arguments;
mod command;
mod inputs;
mod mesh_file;
mod text_fetch;

pub use command::{CUBES_MAX, Command, LogFiles, ProofFiles, ReplayFiles, command_of};
pub use inputs::{Ready, prepare};
pub use mesh_file::{Format, MeshFile};
pub use text_fetch::fetch_text;
