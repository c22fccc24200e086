//! The acts that edits of a mesh share: vertices and faces are made one after another within the limits, and corners are compared and
//! renamed.
#![tactic(auto)]

mod additions;
mod corners;
mod limits;

pub use additions::{exact_mid, make_face, make_faces, make_vertex};
pub use corners::{are_equal, corners_at, renamed};
pub use limits::are_over;
