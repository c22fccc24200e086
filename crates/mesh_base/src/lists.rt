use crate::ids::{FaceId, VertexId};
use crate::steps::ShiftOf;
use grid_base::{Items, Point};

/// Points, in order.
pub type Points = Items<Point>;
/// Faces by the numbers of their corners, in order.
pub type Triangles = Items<[u32; 3]>;
/// Ids of vertices, in order.
pub type Ids = Items<VertexId>;
/// Ids of faces, in order.
pub type FaceIds = Items<FaceId>;
/// Edges by their ends, the smaller id first, in order.
pub type Edges = Items<(VertexId, VertexId)>;
/// Shifts of the live vertices of a mesh, by rising id.
pub type Shifts = Items<ShiftOf>;

/// What a text gave: points, and faces whose corners number points from 1.
#[derive(Drop)]
pub struct MeshLists {
    pub points: Points,
    pub faces: Triangles,
}
