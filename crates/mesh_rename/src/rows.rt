//! Rows of a mesh that takes new ids.
ghost use Rattle.std.specs.Prelude.{◌≡◌, ◌≤◌, length, map, IfOk};
ghost use Rattle.std.specs.List.Sorted.{IsNonDecreasing};
ghost use Rattle.grid_base.specs.declared.TheConstants.{VERTICES_MAX};
ghost use Rattle.mesh_ids.specs.NewIds.{new_id, renamed};
ghost use Rattle.mesh_rename.specs.Rows.{vertex_row, corners_at, face_row, solid_ids};

use crate::ranks::{face_id, vertex_id};
use grid_base::NoMemory;
use mesh_base::{Corners, FaceId, Ids, Surface, VertexId, point_of};
use mesh_rows::{FaceRow, FaceRows, VertexRow, VertexRows};
use std::alloc::Global;

// A vertex by an id, where it stands.
fn vertex_row<S: Surface>(mesh: &S, id: VertexId, v: VertexId) -> VertexRow
    ensures { result ≡ vertex_row (S.mesh mesh.now) (λ v. id) v }
{
    VertexRow {
        id,
        at: point_of(mesh, v),
    }
}

/// The vertices as they are.
pub(crate) fn vertices_kept<S: Surface>(
    alloc: Global,
    mesh: &S,
    old: &[VertexId],
) -> Result<VertexRows, NoMemory>
    ensures { let m = S.mesh mesh.now in
        IfOk result (λ rows. rows ≡ map (vertex_row m (λ v. v)) old.now) }
{
    let mut rows = VertexRows::new(alloc);
    for v in old {
        rows.push(vertex_row(mesh, *v, *v))?;
    }
    Ok(rows)
}

/// The vertices by the ids that they take.
pub(crate) fn vertices_taken<S: Surface>(
    alloc: Global,
    mesh: &S,
    old: &[VertexId],
    ids: &[u32],
) -> Result<VertexRows, NoMemory>
    requires rising { IsNonDecreasing old.now }
    requires few { length old.now ≤ VERTICES_MAX }
    ensures { let m = S.mesh mesh.now in
        IfOk result (λ rows. rows ≡ map (vertex_row m (new_id old.now ids.now)) old.now) }
{
    let mut rows = VertexRows::new(alloc);
    for v in old {
        rows.push(vertex_row(mesh, vertex_id(old, ids, *v), *v))?;
    }
    Ok(rows)
}

// The corners of a face.
fn corners_at<S: Surface>(mesh: &S, f: FaceId) -> Corners
    ensures { result ≡ corners_at (S.mesh mesh.now) f }
{
    match mesh.corners(f) {
        Some(corners) => Corners {
            first: corners[0],
            second: corners[1],
            third: corners[2],
        },
        None => Corners {
            first: VertexId(0),
            second: VertexId(0),
            third: VertexId(0),
        },
    }
}

// The corners of a face by the ids that they take.
fn corners_taken(old: &[VertexId], ids: &[u32], c: Corners) -> Corners
    requires rising { IsNonDecreasing old.now }
    requires few { length old.now ≤ VERTICES_MAX }
    ensures { result ≡ renamed (new_id old.now ids.now) c }
{
    Corners {
        first: vertex_id(old, ids, c.first),
        second: vertex_id(old, ids, c.second),
        third: vertex_id(old, ids, c.third),
    }
}

/// The faces by the ids that their corners take.
pub(crate) fn faces_of_taken<S: Surface>(
    alloc: Global,
    mesh: &S,
    faces: &[FaceId],
    old: &[VertexId],
    ids: &[u32],
) -> Result<FaceRows, NoMemory>
    requires rising { IsNonDecreasing old.now }
    requires few { length old.now ≤ VERTICES_MAX }
    ensures { let row = face_row (S.mesh mesh.now) (λ f. f) (new_id old.now ids.now) in
        IfOk result (λ rows. rows ≡ map row faces.now) }
{
    let mut rows = FaceRows::new(alloc);
    for f in faces {
        let corners = corners_at(mesh, *f);
        rows.push(FaceRow {
            id: *f,
            corners: corners_taken(old, ids, corners),
        })?;
    }
    Ok(rows)
}

/// The faces by the ids that they take.
pub(crate) fn faces_taken<S: Surface>(
    alloc: Global,
    mesh: &S,
    old: &[FaceId],
    ids: &[u32],
) -> Result<FaceRows, NoMemory>
    requires { IsNonDecreasing old.now }
    ensures { let row = face_row (S.mesh mesh.now) (new_id old.now ids.now) (λ v. v) in
        IfOk result (λ rows. rows ≡ map row old.now) }
{
    let mut rows = FaceRows::new(alloc);
    for f in old {
        rows.push(FaceRow {
            id: face_id(old, ids, *f),
            corners: corners_at(mesh, *f),
        })?;
    }
    Ok(rows)
}

/// The solid vertices as they are.
pub(crate) fn solids_kept<S: Surface>(
    alloc: Global,
    mesh: &S,
    old: &[VertexId],
) -> Result<Ids, NoMemory>
    ensures { let m = S.mesh mesh.now in
        IfOk result (λ ids. ids ≡ solid_ids m (λ v. v) old.now) }
{
    let mut solids = Ids::new(alloc);
    for v in old {
        if mesh.solid(*v) {
            solids.push(*v)?;
        }
    }
    Ok(solids)
}

/// The solid vertices by the ids that they take.
pub(crate) fn solids_taken<S: Surface>(
    alloc: Global,
    mesh: &S,
    old: &[VertexId],
    ids: &[u32],
) -> Result<Ids, NoMemory>
    requires rising { IsNonDecreasing old.now }
    requires few { length old.now ≤ VERTICES_MAX }
    ensures { let m = S.mesh mesh.now in
        IfOk result (λ solids. solids ≡ solid_ids m (new_id old.now ids.now) old.now) }
{
    let mut solids = Ids::new(alloc);
    for v in old {
        if mesh.solid(*v) {
            solids.push(vertex_id(old, ids, *v))?;
        }
    }
    Ok(solids)
}
