//! Makes the mesh whose vertices or faces take new ids.
#![tactic(auto)]

mod ranks;
mod rows;
mod taking;

pub use taking::{with_face_ids, with_vertex_ids};
