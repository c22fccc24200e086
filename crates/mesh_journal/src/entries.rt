ghost use Rattle.std.specs.Prelude.{◌≡◌};
ghost use Rattle.mesh_journal.specs.Entries.{solid_entry};

use grid_base::Point;
use mesh_base::{FaceId, VertexId};

/// What was done to a mesh, with what it takes to undo it.
#[derive(Clone, Copy)]
pub(crate) enum Entry {
    FaceMade(FaceId),
    VertexMade(VertexId),
    FaceDropped(FaceId),
    VertexDropped(VertexId),
    /// The vertex, with its point before.
    VertexPlaced(VertexId, Point),
    /// The vertex, which was not solid before.
    VertexMadeSolid(VertexId),
    /// A vertex was made solid that was so before.
    Unchanged,
}

impl Entry {
    /// The entry of a vertex that is made solid, by whether it was so before.
    pub(crate) fn of_solid(v: VertexId, before: bool) -> Entry
        ensures { result ≡ solid_entry v before }
    {
        if before {
            Entry::Unchanged
        } else {
            Entry::VertexMadeSolid(v)
        }
    }
}
