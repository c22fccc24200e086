//! The pairs of an edge and a face of a mesh that meet and share no vertex, where its vertices stand.
#![tactic(auto)]

mod intersections;

pub use intersections::meeting_pairs;
