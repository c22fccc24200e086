//! The mesh is made row by row.
ghost use Rattle.std.specs.Prelude.{◌≡◌, ◌≤◌, ◌+◌, ◌∷◌, [], None, Ok, true, length, IfOk, IfErr, IsOk};
ghost use Rattle.grid_base.specs.declared.TheConstants.{VERTICES_MAX, FACES_MAX, ID_MAX};
ghost use Rattle.mesh_base.specs.Mesh.{IsSound};
ghost use Rattle.mesh_base.specs.Sides.{IsClosed};
ghost use Rattle.half_mesh.specs.Half.{mesh_in};
ghost use Rattle.mesh_journal.specs.Journal.{mesh_in as journal_mesh_in, kept_in};
ghost use Rattle.mesh_rows.specs.Rows.{mesh_of_rows};
ghost use Rattle.mesh_rows.specs.Making.{with_vertex_row, with_vertex_rows, with_face_row, with_face_rows, with_solids, empty_under, of_all_rows};
ghost use Rattle.mesh_rows.specs.Faults.{is_next, may_have, limits_fault, vertices_fault, face_fault, faces_fault, solids_fault, made_fault, rows_fault, IsRefusal};

use crate::balance::balance_fault;
use crate::face_test::face_fault;
use crate::faults::{RowsFault, RowsRefusal};
use crate::rows::{FaceRow, MeshRows, VertexRow};
use grid_base::{ID_MAX, NoMemory};
use half_mesh::HalfMesh;
use mesh_base::{MeshLists, Points, Scale, Surface, Triangles, VertexId};
use mesh_journal::{Journal, JournalMesh};
use std::alloc::Global;

// A vertex with its id, where that may come next. Answers whether it may.
fn put_vertex(mesh: &mut HalfMesh, row: &VertexRow, next: u32) -> Result<bool, NoMemory>
    requires made { next ≤ (ID_MAX + 1) }
    ensures told { IfOk result
        (λ put. put ≡ may_have (mesh_in mesh.old).next_vertex next row.now.id) }
    ensures put { IfOk result
        (λ put. put ≡ true → mesh_in mesh.new ≡ with_vertex_row (mesh_in mesh.old) row.now) }
{
    if row.id.0 < mesh.next_vertex() || row.id.0 >= next {
        return Ok(false);
    }
    let next_face = mesh.next_face();
    mesh.set_next(row.id.0, next_face);
    match mesh.add_vertex(row.at) {
        Ok(_) => Ok(true),
        // It is not full: fewer vertices live than there are rows.
        Err(_) => Err(NoMemory),
    }
}

// Vertices with their ids, or the first fault.
fn put_vertices(
    mesh: &mut HalfMesh,
    rows: &[VertexRow],
    next: u32,
) -> Result<Option<RowsFault>, NoMemory>
    requires few { length rows.now ≤ VERTICES_MAX }
    requires made { next ≤ (ID_MAX + 1) }
    requires below { (mesh_in mesh.old).next_vertex ≤ next }
    ensures fault { IfOk result
        (λ fault. fault ≡ vertices_fault next 1 (mesh_in mesh.old) rows.now) }
    ensures put { result ≡ Ok None →
        mesh_in mesh.new ≡ with_vertex_rows (mesh_in mesh.old) rows.now }
    ensures below { result ≡ Ok None → (mesh_in mesh.new).next_vertex ≤ next }
    ensures face { result ≡ Ok None →
        (mesh_in mesh.new).next_face ≡ (mesh_in mesh.old).next_face }
{
    let mut place = 1;
    for row in rows {
        if !put_vertex(mesh, row, next)? {
            return Ok(Some(RowsFault::VertexOrder { place }));
        }
        place += 1;
    }
    Ok(None)
}

// A face with its id, or what is wrong with it.
fn put_face(
    mesh: &mut HalfMesh,
    row: &FaceRow,
    next: u32,
    place: u32,
) -> Result<Option<RowsFault>, NoMemory>
    requires made { next ≤ (ID_MAX + 1) }
    ensures fault { IfOk result
        (λ fault. fault ≡ face_fault next place (mesh_in mesh.old) row.now) }
    ensures put { result ≡ Ok None →
        mesh_in mesh.new ≡ with_face_row (mesh_in mesh.old) row.now }
{
    if let Some(fault) = face_fault(mesh, row, next, place) {
        return Ok(Some(fault));
    }
    let next_vertex = mesh.next_vertex();
    mesh.set_next(next_vertex, row.id.0);
    match mesh.add_face(row.corners.list()) {
        Ok(_) => Ok(None),
        // It is not full: fewer faces live than there are rows.
        Err(_) => Err(NoMemory),
    }
}

// Faces with their ids, or the first fault.
fn put_faces(
    mesh: &mut HalfMesh,
    rows: &[FaceRow],
    next: u32,
) -> Result<Option<RowsFault>, NoMemory>
    requires few { length rows.now ≤ FACES_MAX }
    requires made { next ≤ (ID_MAX + 1) }
    requires below { (mesh_in mesh.old).next_face ≤ next }
    ensures fault { IfOk result
        (λ fault. fault ≡ faces_fault next 1 (mesh_in mesh.old) rows.now) }
    ensures put { result ≡ Ok None →
        mesh_in mesh.new ≡ with_face_rows (mesh_in mesh.old) rows.now }
    ensures below { result ≡ Ok None → (mesh_in mesh.new).next_face ≤ next }
    ensures vertex { result ≡ Ok None →
        (mesh_in mesh.new).next_vertex ≡ (mesh_in mesh.old).next_vertex }
{
    let mut place = 1;
    for row in rows {
        if let Some(fault) = put_face(mesh, row, next, place)? {
            return Ok(Some(fault));
        }
        place += 1;
    }
    Ok(None)
}

// Vertices are marked as solid, or the first that cannot be.
fn put_solids(mesh: &mut HalfMesh, solids: &[VertexId]) -> Result<Option<RowsFault>, NoMemory>
    ensures fault { IfOk result
        (λ fault. fault ≡ solids_fault 0 (mesh_in mesh.old) solids.now) }
    ensures put { result ≡ Ok None →
        mesh_in mesh.new ≡ with_solids (mesh_in mesh.old) solids.now }
    ensures vertex { result ≡ Ok None →
        (mesh_in mesh.new).next_vertex ≡ (mesh_in mesh.old).next_vertex }
    ensures face { result ≡ Ok None →
        (mesh_in mesh.new).next_face ≡ (mesh_in mesh.old).next_face }
{
    let mut last = 0;
    for v in solids {
        if v.0 <= last || mesh.point(*v).is_none() {
            return Ok(Some(RowsFault::NotSolid { v: *v }));
        }
        mesh.make_solid(*v)?;
        last = v.0;
    }
    Ok(None)
}

// All rows, or the first fault.
fn put_rows(
    mesh: &mut HalfMesh,
    scale: Scale,
    rows: &MeshRows,
) -> Result<Option<RowsFault>, NoMemory>
    requires limits { limits_fault scale rows.now ≡ None }
    requires empty { mesh_in mesh.old ≡ empty_under scale }
    ensures fault { IfOk result (λ fault. fault ≡ made_fault scale rows.now) }
    ensures put { result ≡ Ok None → mesh_in mesh.new ≡ of_all_rows scale rows.now }
    ensures vertex { result ≡ Ok None → (mesh_in mesh.new).next_vertex ≤ rows.now.next_vertex }
    ensures face { result ≡ Ok None → (mesh_in mesh.new).next_face ≤ rows.now.next_face }
{
    if let Some(fault) = put_vertices(mesh, rows.vertices.as_slice(), rows.next_vertex)? {
        return Ok(Some(fault));
    }
    if let Some(fault) = put_faces(mesh, rows.faces.as_slice(), rows.next_face)? {
        return Ok(Some(fault));
    }
    if let Some(fault) = put_solids(mesh, rows.solids.as_slice())? {
        return Ok(Some(fault));
    }
    Ok(balance_fault(mesh, rows.faces.as_slice()))
}

// Whether an id can be the next.
fn is_next(id: u32) -> bool
    ensures { result ≡ is_next id }
{
    1 <= id && id <= ID_MAX + 1
}

// What is wrong with the numbers of rows and the next ids.
fn limits_fault(scale: Scale, rows: &MeshRows) -> Option<RowsFault>
    ensures { result ≡ limits_fault scale rows.now }
{
    let limits = scale.limits();
    let vertices = rows.vertices.len();
    if vertices > limits.vertices as usize {
        return Some(RowsFault::TooManyVertices {
            count: vertices as u64,
        });
    }
    let faces = rows.faces.len();
    if faces > limits.faces as usize {
        return Some(RowsFault::TooManyFaces {
            count: faces as u64,
        });
    }
    if !is_next(rows.next_vertex) {
        return Some(RowsFault::NextVertex {
            id: rows.next_vertex,
        });
    }
    if !is_next(rows.next_face) {
        return Some(RowsFault::NextFace { id: rows.next_face });
    }
    None
}

// A mesh with nothing in it.
fn empty_mesh(alloc: Global, scale: Scale) -> Result<HalfMesh, NoMemory>
    ensures { IfOk result (λ mesh. mesh_in mesh ≡ empty_under scale) }
{
    let lists = MeshLists {
        points: Points::new(alloc),
        faces: Triangles::new(alloc),
    };
    HalfMesh::of(alloc, scale, &lists)
}

/// The mesh of these rows, which is sound and closed, with the ids and the next ids that they tell, the limits of the scale, and an
/// empty journal; or the first thing that is wrong with them, in the order of `RowsFault`.
pub fn mesh_of_rows(
    alloc: Global,
    scale: Scale,
    rows: &MeshRows,
) -> Result<JournalMesh, RowsRefusal>
    ensures mesh { IfOk result (λ made. journal_mesh_in made ≡ mesh_of_rows scale rows.now) }
    ensures kept { IfOk result (λ made. kept_in made ≡ journal_mesh_in made ∷ []) }
    ensures sound { IsOk result → IsSound (mesh_of_rows scale rows.now) }
    ensures closed { IsOk result → IsClosed (mesh_of_rows scale rows.now) }
    ensures none { IsOk result → rows_fault scale rows.now ≡ None }

    // Refused for a fault: the first.
    ensures first { IfErr result (IsRefusal (rows_fault scale rows.now)) }
{
    if let Some(fault) = limits_fault(scale, rows) {
        return Err(RowsRefusal::Fault(fault));
    }
    let mut mesh = empty_mesh(alloc, scale)?;
    if let Some(fault) = put_rows(&mut mesh, scale, rows)? {
        return Err(RowsRefusal::Fault(fault));
    }
    mesh.set_next(rows.next_vertex, rows.next_face);
    Ok(Journal::over(alloc, mesh))
}
