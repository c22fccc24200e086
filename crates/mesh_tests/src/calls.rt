//! Worked examples of the calls of a mesh, on each kind of mesh, and of those that only one kind has.
ghost use Rattle.std.specs.Prelude.{◌≡◌, ◌≤◌, true, OnOk};
ghost use Rattle.mesh_base.specs.Changes.{IsFresh};
ghost use Rattle.mesh_base.specs.Kept.{BeginsWith};
ghost use Rattle.mesh_journal.specs.Journal.{spare_in};

use crate::meshes::{SIDES, TETRAHEDRON};
use crate::plays::{half_edges, is_fresh, journal, shaped};
use crate::same::assert_same;
use grid_base::{NoMemory, Point};
use half_mesh::HalfMesh;
use mesh_base::{AddFault, FaceId, Scale, Surface, VertexId};
use mesh_journal::JournalMesh;
use mesh_plain::PlainMesh;
use std::alloc::Global;
use std::process::Abort;
use std::test::Fail;

// Whether a face may be made of these corners, where none runs along the second side.
fn is_new<S: Surface>(surface: &S, a: VertexId, b: VertexId, c: VertexId) -> bool
    ensures { result ≡ true →
        IsFresh (S.mesh surface.now) (record { first = a; second = b; third = c }) }
{
    is_fresh(surface, b, c, a)
}

// The ids of a vertex and of a face that it makes with the edge 1 2.
fn added<S: Surface>(mesh: &mut S, rt: &impl Abort) -> Result<(VertexId, FaceId), AddFault>
    ensures { BeginsWith (S.kept mesh.new) (S.kept mesh.old) }
{
    let v = mesh.add_vertex(Point { x: 9, y: 9, z: 9 })?;
    let c = [VertexId(1), VertexId(2), VertexId(5)];
    assert!(rt; is_new(mesh, c[0], c[1], c[2]));
    let f = mesh.add_face(c)?;
    Ok((v, f))
}

// The same, where they are taken back.
fn taken_back<S: Surface>(mesh: &mut S, rt: &impl Abort) -> Result<(VertexId, FaceId), Fail> {
    let mark = mesh.mark()?;
    let made = added(mesh, rt);
    mesh.back_to(mark);
    Ok(made?)
}

fn counts<S: Surface>(mesh: &S) -> [u32; 4] {
    [
        mesh.vertices(),
        mesh.faces(),
        mesh.next_vertex(),
        mesh.next_face(),
    ]
}

// It is the tetrahedron, and no id is given.
fn assert_tetrahedron<S: Surface>(rt: &impl Abort, mesh: &S) {
    assert_same(rt, &counts(mesh), &[4, 4, 5, 5]);
    for (v, p) in (1..).zip(&TETRAHEDRON) {
        assert_same(rt, &mesh.point(VertexId(v)), &Point::new(p[0], p[1], p[2]));
    }
    for (f, c) in (1..).zip(&SIDES) {
        assert_same(rt, &mesh.corners(FaceId(f)), &Some(c.map(|v| VertexId(v))));
    }
}

// The faces at the vertex 1.
const AT_ONE: [FaceId; 3] = [FaceId(1), FaceId(2), FaceId(4)];

// What is told of them. Then it is placed below, and the face 1 is dropped.
fn placed_and_dropped<S: Surface>(
    alloc: Global,
    mesh: &mut S,
    rt: &impl Abort,
) -> Result<Vec<FaceId>, NoMemory> {
    let mut faces = Vec::new(alloc);
    mesh.faces_at(VertexId(1), &mut faces)?;
    assert!(rt; mesh.point(VertexId(1)).is_some());
    mesh.place(VertexId(1), Point { x: 0, y: 0, z: -1 })?;
    assert!(rt; mesh.corners(FaceId(1)).is_some());
    mesh.drop_face(FaceId(1))?;
    Ok(faces)
}

// The calls, each after the other.
fn assert_calls<S: Surface>(rt: &impl Abort, alloc: Global, mesh: &mut S) -> Result<(), Fail> {
    let made = taken_back(mesh, rt)?;
    assert_same(rt, &made, &(VertexId(5), FaceId(5)));
    assert_tetrahedron(rt, mesh);
    let faces = placed_and_dropped(alloc, mesh, rt)?;
    assert!(rt; faces.as_slice() == AT_ONE.as_slice());
    assert_same(rt, &counts(mesh), &[4, 3, 5, 5]);
    assert_same(
        rt,
        &mesh.point(VertexId(1)),
        &Some(Point { x: 0, y: 0, z: -1 }),
    );
    Ok(())
}

// The face across a side is the one beside it.
fn assert_across(rt: &impl Abort, half: &HalfMesh) {
    assert!(rt; half.corners(FaceId(2)).is_some());
    assert_same(rt, &half.across(FaceId(2), 0), &Some((FaceId(1), 2)));
}

// Memory for three changes.
fn reserve_three(journal: &mut JournalMesh) -> Result<(), NoMemory>
    ensures { OnOk result (3 ≤ spare_in journal.new) }
{
    journal.reserve(3)
}

fn plain(rt: &impl Abort, alloc: Global) -> Result<PlainMesh, NoMemory> {
    let lists = shaped(rt, alloc)?;
    PlainMesh::of(alloc, Scale::Standard, &lists)
}

#[test]
fn plain_meshes_are_called(rt: HostRuntime) -> Result<(), Fail> {
    let mut plain = plain(&rt, rt.alloc())?;
    assert_calls(&rt, rt.alloc(), &mut plain)?;
    Ok(())
}

#[test]
fn half_edges_are_called(rt: HostRuntime) -> Result<(), Fail> {
    let mut half = half_edges(&rt, rt.alloc())?;
    assert_across(&rt, &half);
    assert_calls(&rt, rt.alloc(), &mut half)?;
    Ok(())
}

#[test]
fn journals_are_called(rt: HostRuntime) -> Result<(), Fail> {
    let mut journal = journal(&rt, rt.alloc(), 5, 5)?;
    assert_same(&rt, &reserve_three(&mut journal), &Ok(()));
    assert_calls(&rt, rt.alloc(), &mut journal)?;
    Ok(())
}
