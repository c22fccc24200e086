//! What the lines of a log make of a mesh, and what a log promises of the motions and edits that it tells.
#![tactic(auto)]

pub mod laws;
