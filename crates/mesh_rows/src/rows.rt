//! The rows of a mesh: its vertices and its faces with their ids.
use grid_base::{Items, Point};
use mesh_base::{Corners, FaceId, Ids, VertexId};

/// A vertex, by its id, and where it stands.
#[derive(Clone, Copy)]
pub struct VertexRow {
    pub id: VertexId,
    pub at: Point,
}

/// A face, by its id, and its corners.
#[derive(Clone, Copy)]
pub struct FaceRow {
    pub id: FaceId,
    pub corners: Corners,
}

/// Vertices, in order.
pub type VertexRows = Items<VertexRow>;
/// Faces, in order.
pub type FaceRows = Items<FaceRow>;

/// All that a mesh has: its vertices, its faces and its solid vertices, each by rising id, and the ids that come next.
#[derive(Drop)]
pub struct MeshRows {
    pub vertices: VertexRows,
    pub faces: FaceRows,
    pub solids: Ids,
    pub next_vertex: u32,
    pub next_face: u32,
}
