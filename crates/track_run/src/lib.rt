//! The top call: a mesh is read, moved by directives and saved, and a log tells each line of it, from which all meshes can be
//! replayed; a mesh is converted or checked, a job that is made is tried, or a log is measured or replayed, or its motions are proved or a
//! proof of them verified.
#![tactic(auto)]

mod ending;
pub mod laws;
mod listed_volume;
mod outcome;
mod surface_facts;
mod top;

pub use outcome::Outcome;
pub use top::run;
