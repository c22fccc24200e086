//! Impulses: what the five vertices of a pair get on one axis, and passes of impulses over the pairs of a mesh.
#![tactic(auto)]

mod axis;
mod impulse;
pub mod laws;
mod pass;

pub use axis::Axis;
pub use impulse::axis_impulse;
pub use pass::impulse_pass;
