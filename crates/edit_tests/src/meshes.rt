//! Meshes for the examples, and what is asked of meshes and answers.
ghost use Rattle.std.specs.Prelude.{IfOk};
ghost use Rattle.mesh_base.specs.Placements.{IsClearMesh};
ghost use Rattle.mesh_base.specs.Sides.{IsClosed};

use edit_base::{Edit, Why};
use grid_base::{ID_MAX, NoMemory, Point};
use mesh_base::{FaceId, MeshLists, Points, Scale, Surface, Triangles, VertexId};
use mesh_plain::PlainMesh;
use mesh_shape::shape;
use pair_scan::first_meeting;
use std::alloc::Global;
use std::fmt::Debug;
use std::process::Abort;

pub(crate) const TETRAHEDRON: [[i32; 3]; 4] = [[0, 0, 0], [4, 0, 0], [0, 4, 0], [0, 0, 4]];

pub(crate) const TETRAHEDRON_FACES: [[u32; 3]; 4] = [[1, 3, 2], [1, 2, 4], [2, 3, 4], [1, 4, 3]];

// A flat double pyramid over the triangle 1 2 3, in which 4 and 5 stand near the edge 1 2.
pub(crate) const FLAT: [[i32; 3]; 5] = [
    [0, 0, 0],
    [24, 0, 0],
    [12, 20, 0],
    [12, 6, 4],
    [12, 6, -4],
];

pub(crate) const FLAT_FACES: [[u32; 3]; 6] = [
    [1, 2, 4],
    [2, 3, 4],
    [3, 1, 4],
    [2, 1, 5],
    [3, 2, 5],
    [1, 3, 5],
];

// Ends the test where what is found is not what is wanted. One call costs the prover less than an assertion in its place.
pub(crate) fn assert_same<T: PartialEq + Debug>(rt: &impl Abort, found: &T, wanted: &T) {
    assert_eq!(rt; found, wanted);
}

// The same of bytes.
pub(crate) fn assert_bytes(rt: &impl Abort, found: &[u8], wanted: &[u8]) {
    assert_eq!(rt; found, wanted);
}

fn point(p: [i32; 3], rt: &impl Abort) -> Point {
    Point::new(p[0], p[1], p[2]).expect(rt, "a point in the box")
}

pub(crate) fn lists_at(
    alloc: Global,
    points: &[[i32; 3]],
    faces: &[[u32; 3]],
    rt: &impl Abort,
) -> Result<MeshLists, NoMemory> {
    let mut lists = MeshLists {
        points: Points::new(alloc),
        faces: Triangles::new(alloc),
    };
    for p in points {
        lists.points.push(point(*p, rt))?;
    }
    for f in faces {
        lists.faces.push(*f)?;
    }
    Ok(lists)
}

// The mesh of these lists, which is clear, with these next ids.
pub(crate) fn mesh_of(
    alloc: Global,
    lists: &MeshLists,
    next_vertex: u32,
    next_face: u32,
    rt: &impl Abort,
) -> Result<PlainMesh, NoMemory>
    ensures closed { IfOk result (λ s. IsClosed (⟦<PlainMesh as Surface>⟧.mesh s)) }
    ensures clear { IfOk result (λ s. IsClearMesh (⟦<PlainMesh as Surface>⟧.mesh s)) }
{
    let shaped = shape(alloc, Scale::Standard, lists);
    assert!(rt; shaped.is_ok());
    assert!(rt; lists.points.len() < next_vertex as usize && next_vertex <= ID_MAX + 1);
    assert!(rt; lists.faces.len() < next_face as usize && next_face <= ID_MAX + 1);
    let mesh = PlainMesh::of_numbered(alloc, Scale::Standard, lists, next_vertex, next_face)?;
    let found = first_meeting(alloc, &mesh)?;
    assert!(rt; found.is_none());
    Ok(mesh)
}

// Whether each of these faces lives and has the corners.
pub(crate) fn has_faces<S: Surface>(mesh: &S, faces: &[(u32, [u32; 3])]) -> bool {
    for (id, c) in faces {
        let corners = [VertexId(c[0]), VertexId(c[1]), VertexId(c[2])];
        if mesh.corners(FaceId(*id)) != Some(corners) {
            return false;
        }
    }
    true
}

// The live vertices, the live faces, and the ids that come next.
pub(crate) fn counts<S: Surface>(mesh: &S) -> [u32; 4] {
    [
        mesh.vertices(),
        mesh.faces(),
        mesh.next_vertex(),
        mesh.next_face(),
    ]
}

// Why an edit is refused.
pub(crate) fn reason_of(edit: &Edit) -> Option<Why> {
    match edit {
        Edit::Done(_) => None,
        Edit::No(why) => Some(*why),
    }
}
