//! How the vertices of a test move, and which pairs may touch.
use grid_base::Wide;
use mesh_base::VertexId;

/// Where a vertex goes from and to, in half units.
#[derive(Clone, Copy, Debug, PartialEq, Eq)]
pub struct Move {
    pub v: VertexId,
    pub start: Wide,
    pub end: Wide,
}

/// Whether pairs of which each member has one of the vertices named may touch, and when.
#[derive(Clone, Copy, Debug, PartialEq, Eq)]
pub enum Touch {
    /// At no time.
    Never,
    /// At the start, and then they must open.
    Start,
    /// At the end, and until then they must close.
    End,
}
