//! What a test tells of the edges of a motion with the faces near them, in order of the edge and then of the face. One scan serves
//! each test of pairs: trees of boxes leave out the faces that are far apart from an edge.
#![tactic(auto)]

mod across;
mod asked_tree;
mod frames;
mod neighbours;
mod of_mesh;
mod pair_test;
mod range;
mod scan;
mod separation;
mod slab_tree;
mod slabs;
mod still_faces;
mod views;

pub use frames::Frames;
pub use of_mesh::told_of_mesh;
pub use pair_test::PairTest;
pub use scan::told_along;
