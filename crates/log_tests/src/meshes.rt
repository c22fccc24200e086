//! Meshes for the examples, as texts.
use line_text::ReadFault;
use mesh_base::MeshLists;
use obj_text::read_obj;
use std::alloc::Global;
use std::process::Abort;

// A tetrahedron.
pub(crate) const TETRAHEDRON: &[u8] =
    b"v 0 0 0\nv 4 0 0\nv 0 4 0\nv 0 0 4\nf 1 3 2\nf 1 2 4\nf 2 3 4\nf 1 4 3\n";

// Points without a face.
pub(crate) const BARE: &[u8] = b"v 0 0 0\nv 4 0 0\nv 0 4 0\nv 0 0 4\n";

// One whose edge 1 2 has its midpoint between two points of the grid.
pub(crate) const LONG: &[u8] =
    b"v 0 0 0\nv 5 0 0\nv 2 2 0\nv 2 0 2\nf 1 3 2\nf 1 2 4\nf 2 3 4\nf 1 4 3\n";

// Two double pyramids with one common edge.
pub(crate) const JOINED: &[u8] =
    b"v 0 0 0\nv 0 0 8\nv 100 -40 4\nv 100 40 4\nv 120 0 7\nv -100 -40 4\nv -100 40 4\nv -120 0 7\n\
f 1 2 3\nf 1 3 4\nf 1 4 2\nf 5 3 2\nf 5 4 3\nf 5 2 4\nf 2 1 6\nf 1 7 6\nf 1 2 7\nf 8 2 6\nf 8 6 7\n\
f 8 7 2\n";

// Two boxes, one beside the other.
pub(crate) const BOXES: &[u8] =
    b"v 10 0 0\nv 10 10 10\nv 10 10 0\nv 10 0 10\nv 0 0 0\nv 0 10 0\nv 0 10 10\nv 0 0 10\nv 14 -5 -5\n\
v 14 15 15\nv 14 15 -5\nv 14 -5 15\nv 34 -5 -5\nv 34 15 -5\nv 34 15 15\nv 34 -5 15\nf 1 3 2 4\n\
f 5 8 7 6\nf 1 4 8 5\nf 3 6 7 2\nf 1 5 6 3\nf 4 2 7 8\nf 9 12 10 11\nf 13 14 15 16\nf 9 13 16 12\n\
f 11 10 15 14\nf 9 11 14 13\nf 12 16 15 10\n";

// A square ring: eight boxes round a hole, as one surface.
pub(crate) const RING: &[u8] =
    b"v 0 0 0\nv 30 0 0\nv 30 30 0\nv 0 30 0\nv 10 10 0\nv 20 10 0\nv 20 20 0\nv 10 20 0\nv 0 0 10\n\
v 30 0 10\nv 30 30 10\nv 0 30 10\nv 10 10 10\nv 20 10 10\nv 20 20 10\nv 10 20 10\nf 1 6 2\nf 1 5 6\n\
f 2 7 3\nf 2 6 7\nf 3 8 4\nf 3 7 8\nf 4 5 1\nf 4 8 5\nf 9 10 14\nf 9 14 13\nf 10 11 15\nf 10 15 14\n\
f 11 12 16\nf 11 16 15\nf 12 9 13\nf 12 13 16\nf 1 2 10\nf 1 10 9\nf 2 3 11\nf 2 11 10\nf 3 4 12\n\
f 3 12 11\nf 4 1 9\nf 4 9 12\nf 6 5 13\nf 6 13 14\nf 7 6 14\nf 7 14 15\nf 8 7 15\nf 8 15 16\n\
f 5 8 16\nf 5 16 13\n";

// The same, where that edge is a vertex which is parted.
pub(crate) const PARTED: &[u8] =
    b"v 13 0 4\nv 100 -40 4\nv 100 40 4\nv 120 0 7\nv -100 -40 4\nv -100 40 4\nv -120 0 7\nv -13 0 4\n\
f 1 2 3\nf 4 3 2\nf 7 5 6\nf 4 2 1\nf 4 1 3\nf 8 6 5\nf 7 8 5\nf 7 6 8\n";

pub(crate) fn lists_of(
    alloc: Global,
    text: &[u8],
    rt: &impl Abort,
) -> Result<MeshLists, ReadFault> {
    assert!(rt; text.len() < 1_000);
    read_obj(alloc, text, 0)
}
