//! Worked examples, each by its own call: edits that are refused, fans, and checks of a mesh that stands still.
ghost use Rattle.std.specs.Prelude.{◌≡◌, [], true, OnOk};
ghost use Rattle.mesh_base.specs.Changes.{IsFresh, corners_of, with_face};
ghost use Rattle.mesh_base.specs.Placements.{IsClearMesh};
ghost use Rattle.edit_check.specs.Agreeing.{AgreesWhereOld};

use crate::edits::{PAIR, PAIR_FACES};
use crate::meshes::{TETRAHEDRON, TETRAHEDRON_FACES, assert_same, lists_at, mesh_of, reason_of};
use edit_base::{Touch, Why};
use edit_check::{check, check_still};
use edit_pinch::{fan_count, pinch};
use edit_split::split;
use edit_zip::zip;
use grid_base::NoMemory;
use mesh_base::{AddFault, FaceId, PairName, Surface, VertexId};
use std::alloc::Global;
use std::process::Abort;
use std::test::Fail;

const DEPTH: u8 = 6;

// Why the tetrahedron is not split at one id twice, pinched at a vertex with one fan, or zipped at two edges that are opposite.
fn refused(alloc: Global, rt: &impl Abort) -> Result<[Option<Why>; 3], NoMemory> {
    let [a, b, e, f] = [VertexId(1), VertexId(2), VertexId(3), VertexId(4)];
    let lists = lists_at(alloc, &TETRAHEDRON, &TETRAHEDRON_FACES, rt)?;
    let mut mesh = mesh_of(alloc, &lists, 5, 5, rt)?;
    let by_split = reason_of(&split(alloc, &mut mesh, a, a, DEPTH)?);
    let by_pinch = reason_of(&pinch(alloc, &mut mesh, a, DEPTH)?);
    let by_zip = reason_of(&zip(alloc, &mut mesh, a, b, e, f)?);
    Ok([by_split, by_pinch, by_zip])
}

#[test]
fn edits_of_a_tetrahedron_are_refused(rt: HostRuntime) -> Result<(), Fail> {
    let found = refused(rt.alloc(), &rt)?;
    let wanted = [Why::NoEdge, Why::OneFan, Why::Shared].map(|why| Some(why));
    assert_same(&rt, &found, &wanted);
    Ok(())
}

#[test]
fn two_tetrahedra_with_a_vertex_in_common_have_two_fans_there(rt: HostRuntime) -> Result<(), Fail> {
    let lists = lists_at(rt.alloc(), &PAIR, &PAIR_FACES, &rt)?;
    let mesh = mesh_of(rt.alloc(), &lists, 8, 9, &rt)?;
    let fans = fan_count(rt.alloc(), &mesh, VertexId(1))?;
    assert_same(&rt, &fans, &2);
    Ok(())
}

// The first pair of the tetrahedron that is not as required, where nothing moves and no face is new.
fn first_of_one(alloc: Global, rt: &impl Abort) -> Result<Option<PairName>, NoMemory> {
    let lists = lists_at(alloc, &TETRAHEDRON, &TETRAHEDRON_FACES, rt)?;
    let mesh = mesh_of(alloc, &lists, 5, 5, rt)?;
    check(alloc, &mesh, &[], Touch::Never, &[], 5, DEPTH)
}

// The tetrahedron, and the points of the same one unit further along each axis.
const THROUGH: [[i32; 3]; 8] = [
    [0, 0, 0],
    [4, 0, 0],
    [0, 4, 0],
    [0, 0, 4],
    [1, 1, 1],
    [5, 1, 1],
    [1, 5, 1],
    [1, 1, 5],
];

const SECOND_FACES: [[u32; 3]; 4] = [[5, 7, 6], [5, 6, 8], [6, 7, 8], [5, 8, 7]];

/// Whether the corners live and differ, and no face runs along the first side.
fn is_fresh<S: Surface>(surface: &S, a: VertexId, b: VertexId, c: VertexId) -> bool
    ensures { result ≡ true →
        IsFresh (S.mesh surface.now) (record { first = a; second = b; third = c }) }
{
    if surface.point(a).is_none() {
        return false;
    }
    if surface.point(b).is_none() {
        return false;
    }
    if surface.point(c).is_none() {
        return false;
    }
    if a == b {
        return false;
    }
    if b == c {
        return false;
    }
    if c == a {
        return false;
    }
    surface.runs(a, b) == 0
}

// Makes a face.
fn put_face<S: Surface>(mesh: &mut S, c: [VertexId; 3], rt: &impl Abort) -> Result<(), AddFault>
    ensures { OnOk result (S.mesh mesh.new ≡ with_face (S.mesh mesh.old) (corners_of c)) }
{
    assert!(rt; is_fresh(mesh, c[0], c[1], c[2]));
    mesh.add_face(c)?;
    Ok(())
}

// Makes faces. The mesh agrees with the one before where that one is.
fn put_faces<S: Surface>(
    mesh: &mut S,
    faces: &[[VertexId; 3]],
    rt: &impl Abort,
) -> Result<(), AddFault>
    ensures { OnOk result (AgreesWhereOld (S.mesh mesh.old) (S.mesh mesh.new) []) }
{
    for c in faces {
        put_face(mesh, *c, rt)?;
    }
    Ok(())
}

// The first pair that meets, once the faces of the second are made, which are new.
fn first_of_both<S: Surface>(
    alloc: Global,
    mesh: &mut S,
    rt: &impl Abort,
) -> Result<Option<PairName>, Fail>
    requires { IsClearMesh (S.mesh mesh.old) }
{
    let fresh_from = mesh.next_face();
    assert_same(rt, &fresh_from, &5);
    let faces = SECOND_FACES.map(|c| c.map(|v| VertexId(v)));
    put_faces(mesh, &faces, rt)?;
    let found = check_still(alloc, mesh, fresh_from)?;
    Ok(found)
}

// The edge 5 6 goes through the face 3, at (2, 1, 1).
const EDGE_AND_FACE: PairName = PairName {
    a: VertexId(5),
    b: VertexId(6),
    face: FaceId(3),
};

#[test]
fn bodies_that_stand_still_are_checked(rt: HostRuntime) -> Result<(), Fail> {
    let found = first_of_one(rt.alloc(), &rt)?;
    assert_same(&rt, &found, &None);
    let lists = lists_at(rt.alloc(), &THROUGH, &TETRAHEDRON_FACES, &rt)?;
    let mut mesh = mesh_of(rt.alloc(), &lists, 9, 5, &rt)?;
    let found = first_of_both(rt.alloc(), &mut mesh, &rt)?;
    assert_same(&rt, &found, &Some(EDGE_AND_FACE));
    Ok(())
}
