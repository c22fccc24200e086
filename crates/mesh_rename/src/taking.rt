//! Vertices or faces take new ids.
ghost use Rattle.std.specs.Prelude.{◌≡◌, ◌∷◌, [], IfOk, IfSome};
ghost use Rattle.mesh_base.specs.declared.limits.Scale.TheVariants.{Large};
ghost use Rattle.mesh_base.specs.Limits.{limits_of};
ghost use Rattle.mesh_journal.specs.Journal.{mesh_in, kept_in};
ghost use Rattle.mesh_rows.specs.Rows.{mesh_of_rows};
ghost use Rattle.mesh_ids.specs.NewIds.{with_vertex_ids, with_face_ids};

use crate::rows::{
    faces_of_taken, faces_taken, solids_kept, solids_taken, vertices_kept, vertices_taken,
};
use grid_base::NoMemory;
use mesh_base::{Limits, Scale, Surface, live_faces, live_vertices};
use mesh_journal::JournalMesh;
use mesh_rows::{MeshRows, mesh_of_rows};
use std::alloc::Global;

// The scale whose limits these are; none, where they are of no scale.
fn scale_of(limits: Limits) -> Option<Scale>
    ensures { IfSome result (λ scale. limits_of scale ≡ limits) }
{
    let standard = Scale::Standard.limits();
    if limits.vertices == standard.vertices && limits.faces == standard.faces {
        return Some(Scale::Standard);
    }
    let large = Scale::Large.limits();
    if limits.vertices == large.vertices && limits.faces == large.faces {
        return Some(Scale::Large);
    }
    None
}

// The mesh of rows. Those of a mesh that takes new ids have no fault, and its limits are those of a scale: memory alone can be wanting.
fn made(alloc: Global, limits: Limits, rows: &MeshRows) -> Result<JournalMesh, NoMemory>
    ensures mesh { IfOk result (λ made.
        mesh_in made ≡ record (mesh_of_rows Large rows.now) { limits = limits }) }
    ensures kept { IfOk result (λ made. kept_in made ≡ mesh_in made ∷ []) }
{
    let Some(scale) = scale_of(limits) else {
        return Err(NoMemory);
    };
    match mesh_of_rows(alloc, scale, rows) {
        Ok(mesh) => Ok(mesh),
        Err(_) => Err(NoMemory),
    }
}

/// The mesh whose live vertices take these ids in turn, by rising id, and whose next vertex gets the id `next`, with an empty journal. Refuses
/// where there is no memory; and where the ids may not be taken (`MayTake`).
pub fn with_vertex_ids<S: Surface>(
    alloc: Global,
    mesh: &S,
    ids: &[u32],
    next: u32,
) -> Result<JournalMesh, NoMemory>
    ensures mesh { let m = S.mesh mesh.now in
        IfOk result (λ made. mesh_in made ≡ with_vertex_ids m ids.now next) }
    ensures kept { IfOk result (λ made. kept_in made ≡ mesh_in made ∷ []) }
{
    let old = live_vertices(alloc, mesh)?;
    let faces = live_faces(alloc, mesh)?;
    let rows = MeshRows {
        vertices: vertices_taken(alloc, mesh, old.as_slice(), ids)?,
        faces: faces_of_taken(alloc, mesh, faces.as_slice(), old.as_slice(), ids)?,
        solids: solids_taken(alloc, mesh, old.as_slice(), ids)?,
        next_vertex: next,
        next_face: mesh.next_face(),
    };
    made(alloc, mesh.limits(), &rows)
}

/// The mesh whose live faces take these ids in turn, by rising id, and whose next face gets the id `next`, with an empty journal. Refuses
/// where there is no memory; and where the ids may not be taken (`MayTake`).
pub fn with_face_ids<S: Surface>(
    alloc: Global,
    mesh: &S,
    ids: &[u32],
    next: u32,
) -> Result<JournalMesh, NoMemory>
    ensures mesh { let m = S.mesh mesh.now in
        IfOk result (λ made. mesh_in made ≡ with_face_ids m ids.now next) }
    ensures kept { IfOk result (λ made. kept_in made ≡ mesh_in made ∷ []) }
{
    let vertices = live_vertices(alloc, mesh)?;
    let old = live_faces(alloc, mesh)?;
    let rows = MeshRows {
        vertices: vertices_kept(alloc, mesh, vertices.as_slice())?,
        faces: faces_taken(alloc, mesh, old.as_slice(), ids)?,
        solids: solids_kept(alloc, mesh, vertices.as_slice())?,
        next_vertex: mesh.next_vertex(),
        next_face: next,
    };
    made(alloc, mesh.limits(), &rows)
}
