//! A neighbour list with the vertices and faces of which it was made.
ghost use Rattle.step_lists.specs.Among.{IsListAmong};

use grid_base::Items;
use mesh_base::{Corners, FaceId, VertexId};
use neighbour_list::NeighbourList;

/// A neighbour list that is kept while its mesh may change: with it stand the vertices and faces of which it was made, and its
/// pairs are those of these vertices and faces that are near at its reference points.
#[derive(Drop)]
pub struct KeptList {
    /// The list.
    pub list: NeighbourList,
    /// The vertices of which it was made, rising.
    pub vertices: Items<VertexId>,
    /// The faces of which it was made, by rising id.
    pub faces: Items<(FaceId, Corners)>,
    ghost made: { IsListAmong vertices faces list },
}
