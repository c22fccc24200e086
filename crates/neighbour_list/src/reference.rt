//! Reference points of vertices.
use mesh_base::VertexId;
use pair_paths::Position;

/// A vertex and its reference point, from which its drift is measured.
#[derive(Clone, Copy)]
pub struct Reference {
    pub v: VertexId,
    pub at: Position,
}
