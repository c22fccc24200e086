//! A vertex, and what is kept of it.

use grid_base::Point;

/// A vertex: where it stands, and whether it is solid.
#[derive(Clone, Copy)]
pub(crate) struct Vertex {
    pub(crate) point: Point,
    pub(crate) solid: bool,
}

/// A vertex, with the first of so many half-edges that leave it.
#[derive(Clone, Copy)]
pub(crate) struct Row {
    pub(crate) vertex: Vertex,
    pub(crate) first: u32,
    pub(crate) count: u32,
}
