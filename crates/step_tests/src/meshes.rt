//! Meshes for the examples.
use grid_base::{NoMemory, Point};
use mesh_base::{MeshLists, Points, Scale, Triangles};
use mesh_plain::PlainMesh;
use mesh_shape::shape;
use std::alloc::Global;
use std::process::Abort;

// Two tetrahedra beside each other: the first has the vertices 1 to 4 and a face in x = 0, and the vertex 5 of the second
// stands before it.
const BESIDE: [[i32; 3]; 8] = [
    [0, 0, 0],
    [0, 12, 0],
    [0, 0, 12],
    [-12, 0, 0],
    [8, 2, 2],
    [12, 2, 2],
    [12, 6, 2],
    [14, 2, 6],
];

const BESIDE_SIDES: [[u32; 3]; 8] = [
    [1, 2, 3],
    [2, 1, 4],
    [3, 2, 4],
    [1, 3, 4],
    [6, 7, 8],
    [7, 6, 5],
    [8, 7, 5],
    [6, 8, 5],
];

// The lists, without the points that are not in the box.
fn lists_of(alloc: Global, points: &[[i32; 3]], faces: &[[u32; 3]]) -> Result<MeshLists, NoMemory> {
    let mut lists = MeshLists {
        points: Points::new(alloc),
        faces: Triangles::new(alloc),
    };
    put(&mut lists, points, faces, [0; 2], 0)?;
    Ok(lists)
}

// Puts points to the lists, so far to the side and up, behind so many, and faces by the numbers of their corners among these.
fn put(
    lists: &mut MeshLists,
    points: &[[i32; 3]],
    faces: &[[u32; 3]],
    [x, y]: [i32; 2],
    before: u32,
) -> Result<(), NoMemory> {
    for p in points {
        if let Some(point) = Point::new(p[0].wrapping_add(x), p[1].wrapping_add(y), p[2]) {
            lists.points.push(point)?;
        }
    }
    for f in faces {
        lists.faces.push(f.map(|v| v.wrapping_add(before)))?;
    }
    Ok(())
}

// A mesh of good shape.
fn mesh_of(alloc: Global, lists: &MeshLists, rt: &impl Abort) -> Result<PlainMesh, NoMemory> {
    let shaped = shape(alloc, Scale::Standard, lists);
    assert!(rt; shaped.is_ok());
    PlainMesh::of(alloc, Scale::Standard, lists)
}

// The two tetrahedra beside each other, so far up.
pub(crate) fn beside(alloc: Global, up: i32, rt: &impl Abort) -> Result<PlainMesh, NoMemory> {
    let mut lists = lists_of(alloc, &[], &[])?;
    put(&mut lists, &BESIDE, &BESIDE_SIDES, [0, up], 0)?;
    mesh_of(alloc, &lists, rt)
}

const TETRAHEDRON: [[i32; 3]; 4] = [[0, 0, 0], [48, 0, 0], [0, 48, 0], [0, 0, 48]];

const SIDES: [[u32; 3]; 4] = [[1, 3, 2], [1, 2, 4], [2, 3, 4], [1, 4, 3]];

// Seventeen rows of eight tetrahedra.
pub(crate) fn many(alloc: Global, rt: &impl Abort) -> Result<PlainMesh, NoMemory> {
    let mut lists = lists_of(alloc, &[], &[])?;
    let mut before: u32 = 0;
    for row in 0..17_i32 {
        for column in 0..8_i32 {
            let at = [column.wrapping_mul(100), row.wrapping_mul(100)];
            put(&mut lists, &TETRAHEDRON, &SIDES, at, before)?;
            before = before.wrapping_add(4);
        }
    }
    mesh_of(alloc, &lists, rt)
}
