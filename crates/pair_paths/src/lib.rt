//! Edges and faces of a mesh that moves: the paths of their vertices, their boxes, and their pairs as the written test of
//! a motion takes them.
#![tactic(auto)]

mod bounds;
mod frame;
mod frame_boxes;
mod known;
pub mod laws;
mod moving_parts;
mod pairs;
mod path;
mod position;

pub use bounds::HasBounds;
pub use frame::{Frame, HasBoundsIn};
pub use frame_boxes::boxes_in;
pub use known::{KnownPaths, PathOf, known_path, paths_of};
pub use moving_parts::{MovingEdge, MovingFace, face_with_paths, moving_edge, moving_faces};
pub use pairs::{ends_of, name_of, pair_of, share_a_vertex, starts_of};
pub use path::{Path, Paths};
pub use position::Position;
