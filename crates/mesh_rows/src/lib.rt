//! A mesh made again from its vertices and faces with the ids that they had, its solid vertices and its next ids.
#![tactic(auto)]

mod balance;
mod construction;
mod face_test;
mod faults;
mod rows;

pub use construction::mesh_of_rows;
pub use faults::{RowsFault, RowsRefusal};
pub use rows::{FaceRow, FaceRows, MeshRows, VertexRow, VertexRows};
