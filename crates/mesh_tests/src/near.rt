//! The faces near boxes, without an index and with one.

use crate::meshes::tetrahedron;
use grid_base::{Extent, NoMemory, Point};
use mesh_base::{FaceId, Scale, Surface};
use mesh_journal::JournalMesh;
use mesh_shape::shape;
use std::alloc::Global;
use std::process::Abort;
use std::test::Fail;

// The tetrahedron in half units: the face 1 is in z = 0, 2 in y = 0 and 4 in x = 0, each from 0 to 8 along the other axes. The box
// of the face 3 goes from 0 to 8 along each axis.
const BOXES: [([[i32; 3]; 2], &[u32]); 8] = [
    (HERE, &[1, 2, 3]),
    // the box of the face 3 is touched at a corner; from the other side all four are
    (CORNER, &[3]),
    ([[-3, -3, -3], [0, 0, 0]], &[1, 2, 3, 4]),
    ([[9, 0, 0], [20, 20, 20]], &[]),
    ([[-3, -3, -3], [-1, 9, 9]], &[]),
    // in the box of the face 3, though not in the face
    ([[7, 7, 7], [7, 7, 7]], &[3]),
    ([[-9, 1, 1], [0, 8, 8]], &[3, 4]),
    // the greatest points
    ([[-M, -M, -M], [M, M, M]], &[1, 2, 3, 4]),
];

// The greatest coordinate of a point.
const M: i32 = 268_435_456;

const HERE: [[i32; 3]; 2] = [[7, 0, 0], [8, 0, 0]];

const CORNER: [[i32; 3]; 2] = [[8, 8, 8], [9, 9, 9]];

fn point(p: [i32; 3], rt: &impl Abort) -> Point {
    Point::new(p[0], p[1], p[2]).expect(rt, "a corner in the box")
}

// The box from one corner to another.
fn extent(at: [[i32; 3]; 2], rt: &impl Abort) -> Extent {
    let low = point(at[0], rt);
    let high = point(at[1], rt);
    Extent::around(low.wide(), high.wide())
}

fn are_faces(faces: &[FaceId], ids: &[u32]) -> bool {
    let mut same = faces.len() == ids.len();
    for (f, id) in faces.iter().zip(ids) {
        same = same && f.0 == *id;
    }
    same
}

// The tetrahedron.
fn journal(alloc: Global, rt: &impl Abort) -> Result<JournalMesh, NoMemory> {
    let lists = tetrahedron(alloc)?;
    let shaped = shape(alloc, Scale::Standard, &lists);
    assert!(rt; shaped.is_ok());
    JournalMesh::of(alloc, Scale::Standard, &lists)
}

// The faces near a box are these. Before, the list has another face.
fn assert_near(
    alloc: Global,
    journal: &JournalMesh,
    at: [[i32; 3]; 2],
    ids: &[u32],
    rt: &impl Abort,
) -> Result<(), NoMemory> {
    let mut faces = vec![in alloc; FaceId(7)]?;
    let at = extent(at, rt);
    journal.faces_near(at, &mut faces)?;
    assert!(rt; are_faces(&faces, ids));
    Ok(())
}

// The same of all boxes.
fn assert_all_near(alloc: Global, journal: &JournalMesh, rt: &impl Abort) -> Result<(), NoMemory> {
    for (at, ids) in &BOXES {
        assert_near(alloc, journal, *at, ids, rt)?;
    }
    Ok(())
}

// Without an index, and with one.
fn assert_both(alloc: Global, journal: &mut JournalMesh, rt: &impl Abort) -> Result<(), NoMemory> {
    assert_all_near(alloc, journal, rt)?;
    journal.index();
    assert_all_near(alloc, journal, rt)
}

#[test]
fn a_box_that_touches_is_near(rt: HostRuntime) -> Result<(), Fail> {
    let mut journal = journal(rt.alloc(), &rt)?;
    assert_both(rt.alloc(), &mut journal, &rt)?;
    Ok(())
}
