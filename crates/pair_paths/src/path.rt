//! Where a vertex begins and ends in a motion.
use crate::position::Position;
use mesh_base::VertexId;

/// Where a vertex begins and where it ends. It goes from the one to the other in a straight line.
#[derive(Clone, Copy)]
pub struct Path {
    pub start: Position,
    pub end: Position,
}

/// Where the paths of vertices come from.
pub trait Paths {
    ghost use Rattle.std.specs.Prelude.{◌≡◌};
    ghost use Rattle.mesh_base.specs.Placements.{Motion};
    ghost use Rattle.pair_paths.specs.Paths.{path_along};

    /// Where each vertex begins and ends.
    ghost motion: { Self → Motion };

    /// The path of a vertex.
    fn path_of(&self, v: VertexId) -> Path
        ensures { result ≡ path_along (motion self.now) v };
}
