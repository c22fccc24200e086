//! How long the edges of a mesh are, as a sample of its faces tells. Only speed depends on it.
use grid_base::{NoMemory, Point};
use mesh_base::{FaceId, Surface, VertexId, point_of};
use std::alloc::Global;

/// At so many places among the ids a face is looked at.
const SAMPLE: u32 = 128;

// The longest of the distances along the axes.
fn length_between(a: Point, b: Point) -> u32 {
    a.x.abs_diff(b.x)
        .max(a.y.abs_diff(b.y))
        .max(a.z.abs_diff(b.z))
}

// The longest side of the box of three points.
fn side_of<S: Surface>(mesh: &S, ids: [VertexId; 3]) -> u32 {
    let [u, v, w] = ids;
    let a = point_of(mesh, u);
    let b = point_of(mesh, v);
    let c = point_of(mesh, w);
    length_between(a, b)
        .max(length_between(b, c))
        .max(length_between(c, a))
}

// The longest side of the box of a face, if it is live.
fn side_of_face<S: Surface>(mesh: &S, f: FaceId) -> Option<u32> {
    match mesh.corners(f) {
        Some(ids) => Some(side_of(mesh, ids)),
        None => None,
    }
}

// The same of the first face above an id.
fn side_after<S: Surface>(mesh: &S, id: u32) -> Option<u32> {
    match mesh.face_after(id) {
        Some(f) => side_of_face(mesh, f),
        None => None,
    }
}

/// A typical length of an edge: the median of the longest sides of the boxes of some faces; 0, where there are none.
pub(crate) fn typical_length<S: Surface>(alloc: Global, mesh: &S) -> Result<u32, NoMemory> {
    let apart = mesh.next_face() / SAMPLE;
    let mut sides: Vec<u32> = Vec::new(alloc);
    for k in 0..SAMPLE {
        if let Some(side) = side_after(mesh, k.saturating_mul(apart)) {
            sides.push(side)?;
        }
    }
    sides.sort_unstable();
    match sides.get(sides.len() / 2) {
        Some(side) => Ok(*side),
        None => Ok(0),
    }
}
