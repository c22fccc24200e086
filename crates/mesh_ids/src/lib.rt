//! What a mesh is whose vertices or faces take new ids.
#![tactic(auto)]

pub mod laws;
