//! What an edit answers.
use grid_base::{Items, Point};
use mesh_base::{PairName, VertexId};

/// Why an edit is not done.
#[derive(Clone, Copy, Debug, PartialEq, Eq)]
pub enum Why {
    /// The ids are the two ends of no edge.
    NoEdge,
    /// More than one face runs one way along the edge.
    Crowded,
    /// The edge to be made is there already, or would have one end.
    Edge,
    /// The two edges, with the faces beside them, have a vertex in common.
    Shared,
    /// The mesh would pass a limit.
    Full,
    /// Two faces would be equal up to rotation.
    Doubled,
    /// The faces at the vertex are one fan.
    OneFan,
    /// The first pair that does not do what is required of it.
    Hit(PairName),
    /// The vertices that would move are solid.
    Solid,
}

/// A copy of a pinched vertex, and where it stands.
#[derive(Clone, Copy, Debug, PartialEq, Eq)]
pub struct CopyAt {
    pub w: VertexId,
    pub at: Point,
}

/// Copies of a vertex, in order.
pub type Copies = Items<CopyAt>;

/// A done edit.
#[derive(Drop)]
pub enum Change {
    /// The edge is split at a new vertex `w`, which stands at a point.
    Split {
        a: VertexId,
        b: VertexId,
        w: VertexId,
        at: Point,
    },
    /// The edge is exchanged for that between the opposite vertices of the faces beside it.
    Flip {
        a: VertexId,
        b: VertexId,
    },
    /// The edge is drawn together into `a`, which stands at a point if it is left.
    Collapse {
        a: VertexId,
        b: VertexId,
        at: Point,
    },
    /// Two edges are opened and joined by a tunnel, in one of its four turns.
    Zip {
        a: VertexId,
        b: VertexId,
        e: VertexId,
        f: VertexId,
        turn: u8,
    },
    /// The fans at the vertex are parted; the first keeps it, and each other one has a copy.
    Pinch {
        v: VertexId,
        at: Point,
        copies: Copies,
    },
}

/// What came of an edit.
#[derive(Drop)]
pub enum Edit {
    /// It is done, and what it changed.
    Done(Change),
    /// It is not done, and the first reason against it. The mesh is as it was.
    No(Why),
}
