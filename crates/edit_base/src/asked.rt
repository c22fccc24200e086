//! What is asked: one edit, or a pass.
use mesh_base::VertexId;

/// An edit that is asked for. An edge is named by its two ends.
#[derive(Clone, Copy, Debug, PartialEq, Eq)]
pub enum Asked {
    Split {
        a: VertexId,
        b: VertexId,
    },
    Flip {
        a: VertexId,
        b: VertexId,
    },
    Collapse {
        a: VertexId,
        b: VertexId,
    },
    Zip {
        a: VertexId,
        b: VertexId,
        e: VertexId,
        f: VertexId,
    },
    Pinch {
        v: VertexId,
    },
}

/// A pass over the edges of a mesh, over pairs of them, or over its vertices, with the length that it goes by in grid units.
#[derive(Clone, Copy, Debug, PartialEq, Eq)]
pub enum PassKind {
    /// Split each edge that is longer.
    Split { over: u32 },
    /// Collapse each edge that is shorter.
    Collapse { under: u32 },
    /// Flip each edge that is longer than the distance of its opposite corners.
    Flip,
    /// Zip each two edges whose midpoints are no further apart.
    Zip { within: u32 },
    /// Pinch each vertex whose faces are two fans or more.
    Pinch,
}
