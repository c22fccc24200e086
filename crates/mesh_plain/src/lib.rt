//! A mesh of triangles in ordered maps, and the names of fields. Passes on what of mesh_base its user names.
#![tactic(auto)]

mod field_name;
mod plain;
mod tables;

pub use field_name::FieldName;
pub use mesh_base::{
    AddFault, Corners, Edges, FaceId, FaceIds, FileWord, How, Ids, Mark, MeshLists, PairName,
    Points, ShapeFault, ShapeRefusal, ShiftOf, Shifts, Surface, Triangles, UseWhy, VertexId,
    edges_in_order, live_faces, live_vertices,
};
pub use plain::PlainMesh;

/// The greatest number of bytes of a field's name.
pub const FIELD_NAME_MAX: usize = 32;
