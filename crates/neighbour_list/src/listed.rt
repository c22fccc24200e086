//! A pair in a list.
use mesh_base::{Corners, PairName};

/// A pair of an edge and a face by its name, and the corners of its face.
#[derive(Clone, Copy)]
pub struct ListedPair {
    pub name: PairName,
    pub corners: Corners,
}
