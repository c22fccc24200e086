//! The faces and the vertices of a component.
ghost use Rattle.std.specs.Prelude.{◌≡◌, ◌++◌, ◌↔◌, ℕ, true, slice_get, IfOk, OnOk};
ghost use Rattle.std.specs.HashSet.{IsEmpty};
ghost use Rattle.std.specs.List.{flat_map};
ghost use Rattle.std.specs.FinMap as map;
ghost use Rattle.mesh_base.specs.Changes.{corner_list};
ghost use Rattle.mesh_base.specs.Sides.{faces_at, has_corner};
ghost use Rattle.edit_base.specs.Classes.{is_one_of, class_of};
ghost use Rattle.edit_base.specs.Edges.{corners_at};
ghost use Rattle.mesh_measure.specs.Components.{corners_in, vertices_of, vertices_with, component_vertices};
ghost use Rattle.mesh_measure.specs.Shape.{share_vertex};
ghost use Rattle.mesh_measure.specs.Walk.{LeadsTo};

use crate::edge_number::put_in_order;
use crate::traversal::spread;
use edit_acts::corners_at;
use grid_base::NoMemory;
use mesh_base::{Corners, FaceId, Ids, Surface, VertexId};
use std::alloc::Global;
use std::collections::HashSet;

// The vertices to which faces lead from a vertex, itself among them.
fn reach_of<S: Surface>(alloc: Global, mesh: &S, v: VertexId) -> Result<Ids, NoMemory>
    ensures { IfOk result (λ us. (u : ℕ) →
        (is_one_of us u ≡ true) ↔ LeadsTo (S.mesh mesh.now) v u) }
{
    let mut met = HashSet::new(alloc);
    let us = spread(alloc, mesh, v, &mut met)?;
    Ok(us)
}

// Puts the ids of some faces at the end of a list.
fn put_ids(all: &mut Vec<u32>, faces: &[FaceId]) -> Result<(), NoMemory>
    ensures { OnOk result (all.new.items ≡ all.old.items ++ faces.now) }
{
    for f in faces {
        all.push(f.0)?;
    }
    Ok(())
}

// The faces at some vertices, vertex by vertex.
fn faces_around<S: Surface>(
    alloc: Global,
    mesh: &S,
    vertices: &[VertexId],
) -> Result<Vec<u32>, NoMemory>
    ensures { IfOk result (λ all. all.items ≡ flat_map (faces_at (S.mesh mesh.now)) vertices.now) }
{
    let mut all = Vec::new(alloc);
    let mut found = Vec::new(alloc);
    for v in vertices {
        mesh.faces_at(*v, &mut found)?;
        put_ids(&mut all, found.as_slice())?;
    }
    Ok(all)
}

/// The faces to which faces lead from a vertex that has one, by rising id: the class of each face at it.
pub(crate) fn faces_from<S: Surface>(
    alloc: Global,
    mesh: &S,
    v: VertexId,
) -> Result<Vec<u32>, NoMemory>
    ensures { let m = S.mesh mesh.now in IfOk result (λ faces. (f : ℕ) →
        is_one_of (map.keys m.faces) f ≡ true → has_corner (corners_at m f) v ≡ true →
        faces.items ≡ class_of (share_vertex m) (map.keys m.faces) f) }
{
    let vertices = reach_of(alloc, mesh, v)?;
    let mut faces = faces_around(alloc, mesh, vertices.as_slice())?;
    put_in_order(&mut faces);
    Ok(faces)
}

// Puts three corners at the end of a list.
fn put_corners(all: &mut Vec<u32>, c: Corners) -> Result<(), NoMemory>
    ensures { OnOk result (all.new.items ≡ all.old.items ++ corner_list c) }
{
    all.push(c.first.0)?;
    all.push(c.second.0)?;
    all.push(c.third.0)?;
    Ok(())
}

// The corners of some faces, face by face.
fn corners_in<S: Surface>(alloc: Global, mesh: &S, faces: &[u32]) -> Result<Vec<u32>, NoMemory>
    ensures { IfOk result (λ all. all.items ≡ corners_in (S.mesh mesh.now) faces.now) }
{
    let mut all = Vec::new(alloc);
    for f in faces {
        put_corners(&mut all, corners_at(mesh, FaceId(*f)))?;
    }
    Ok(all)
}

/// The vertices of some faces, by rising id.
pub(crate) fn vertices_of<S: Surface>(
    alloc: Global,
    mesh: &S,
    faces: &[u32],
) -> Result<Vec<u32>, NoMemory>
    requires { (f : ℕ) → is_one_of faces.now f ≡ true →
        is_one_of (map.keys (S.mesh mesh.now).faces) f ≡ true }
    ensures { IfOk result (λ vs. vs.items ≡ vertices_of (S.mesh mesh.now) faces.now) }
{
    let mut vertices = corners_in(alloc, mesh, faces)?;
    put_in_order(&mut vertices);
    Ok(vertices)
}

// The vertices of the component of a face, of which this is a corner.
fn vertices_with<S: Surface>(
    alloc: Global,
    mesh: &S,
    f: FaceId,
    v: VertexId,
) -> Result<Vec<u32>, NoMemory>
    requires live { is_one_of (map.keys (S.mesh mesh.now).faces) f ≡ true }
    requires corner { has_corner (corners_at (S.mesh mesh.now) f) v ≡ true }
    ensures { IfOk result (λ vs. vs.items ≡ vertices_with (S.mesh mesh.now) f) }
{
    let faces = faces_from(alloc, mesh, v)?;
    vertices_of(alloc, mesh, faces.as_slice())
}

// The first of some faces.
fn first_of(faces: &[FaceId]) -> Option<FaceId>
    ensures { result ≡ slice_get faces.now 0 }
{
    match faces.first() {
        Some(f) => Some(*f),
        None => None,
    }
}

/// The vertices of the component of a vertex, by rising id: those of all faces to which faces lead from it. None where it has no face. Takes
/// time in proportion to these faces and the logarithm of their number, as far as the calls of the mesh do.
pub fn component_vertices<S: Surface>(
    alloc: Global,
    mesh: &S,
    v: VertexId,
) -> Result<Vec<u32>, NoMemory>
    ensures { IfOk result (λ vs. vs.items ≡ component_vertices (S.mesh mesh.now) v) }
{
    let mut star = Vec::new(alloc);
    mesh.faces_at(v, &mut star)?;
    match first_of(star.as_slice()) {
        None => Ok(Vec::new(alloc)),
        Some(f) => vertices_with(alloc, mesh, f, v),
    }
}
