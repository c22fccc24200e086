//! The pairs of an edge and a face of a mesh: those that do not pass in a motion, whether there is none, and the first that
//! meets where the vertices stand. One scan serves the first two; whether there is none, one such pair tells.
#![tactic(auto)]

mod ends;
mod failing_pairs;
mod intersections;
mod lookup;
mod motions;
mod moves;
mod named;
mod scan;

pub use ends::end_in_box;
pub use failing_pairs::{all_pass, failing};
pub use intersections::{Meets, first_meeting};
pub use lookup::place_of;
pub use motions::{MovedVertices, RestingVertices, ShiftedVertices};
pub use moves::Moves;
pub use named::five_of;
pub use scan::Pairs;
