//! What is around an edge.
ghost use Rattle.std.specs.Prelude.{◌≡◌, IfOk};
ghost use Rattle.std.specs.List.{list_any};
ghost use Rattle.mesh_base.specs.Changes.{corner_list};
ghost use Rattle.shape_laws.specs.Link.{has_two_opposites, is_poor_edge, has_poor_edge, is_other_neighbour, has_other_neighbour, has_face_with, may_faces_cancel, has_plain_link};

use edit_acts::corners_at;
use edit_base::{EdgeFaces, edge_beside, is_crowded, is_edge};
use grid_base::NoMemory;
use mesh_base::{Corners, Surface, VertexId};
use std::alloc::Global;

/// Whether the two faces beside an edge, whose ends come in any order, have two opposite vertices. Not so where the two are no edge.
pub(crate) fn has_two_opposites<S: Surface>(mesh: &S, u: VertexId, v: VertexId) -> bool
    ensures { result ≡ has_two_opposites (S.mesh mesh.now) u v }
{
    match edge_beside(mesh, u, v) {
        Some(s) => s.c != s.d,
        None => false,
    }
}

/// Whether an edge is crowded, or its two opposite vertices are one.
fn is_poor_edge<S: Surface>(mesh: &S, v: VertexId, x: VertexId) -> bool
    ensures { result ≡ is_poor_edge (S.mesh mesh.now) v x }
{
    x != v && (is_crowded(mesh, v, x) || !has_two_opposites(mesh, v, x))
}

/// Whether that is so of an edge from a vertex to a corner.
fn has_poor_side<S: Surface>(mesh: &S, v: VertexId, c: Corners) -> bool
    ensures { result ≡ list_any (is_poor_edge (S.mesh mesh.now) v) (corner_list c) }
{
    is_poor_edge(mesh, v, c.first)
        || is_poor_edge(mesh, v, c.second)
        || is_poor_edge(mesh, v, c.third)
}

/// Whether that is so of an edge at a vertex.
fn has_poor_edge<S: Surface>(alloc: Global, mesh: &S, v: VertexId) -> Result<bool, NoMemory>
    ensures { IfOk result (λ found. found ≡ has_poor_edge (S.mesh mesh.now) v) }
{
    let mut faces = Vec::new(alloc);
    mesh.faces_at(v, &mut faces)?;
    for f in faces.as_slice() {
        if has_poor_side(mesh, v, corners_at(mesh, *f)) {
            return Ok(true);
        }
    }
    Ok(false)
}

/// Whether a vertex is a neighbour of the larger end of an edge, and neither the other end nor an opposite vertex.
fn is_other_neighbour<S: Surface>(mesh: &S, s: EdgeFaces, x: VertexId) -> bool
    ensures { result ≡ is_other_neighbour (S.mesh mesh.now) s x }
{
    x != s.a && is_edge(mesh, s.b, x) && x != s.c && x != s.d
}

/// Whether a corner is one.
fn has_other_corner<S: Surface>(mesh: &S, s: EdgeFaces, c: Corners) -> bool
    ensures { result ≡ list_any (is_other_neighbour (S.mesh mesh.now) s) (corner_list c) }
{
    is_other_neighbour(mesh, s, c.first)
        || is_other_neighbour(mesh, s, c.second)
        || is_other_neighbour(mesh, s, c.third)
}

/// Whether the ends of an edge have a neighbour in common that is not one of its two opposite vertices.
fn has_other_neighbour<S: Surface>(alloc: Global, mesh: &S, s: EdgeFaces) -> Result<bool, NoMemory>
    ensures { IfOk result (λ found. found ≡ has_other_neighbour (S.mesh mesh.now) s) }
{
    let mut faces = Vec::new(alloc);
    mesh.faces_at(s.a, &mut faces)?;
    for f in faces.as_slice() {
        if has_other_corner(mesh, s, corners_at(mesh, *f)) {
            return Ok(true);
        }
    }
    Ok(false)
}

/// Whether some face at a vertex has two other vertices as well.
fn has_face_with<S: Surface>(
    alloc: Global,
    mesh: &S,
    v: VertexId,
    c: VertexId,
    d: VertexId,
) -> Result<bool, NoMemory>
    ensures { IfOk result (λ found. found ≡ has_face_with (S.mesh mesh.now) v c d) }
{
    let mut faces = Vec::new(alloc);
    mesh.faces_at(v, &mut faces)?;
    for f in faces.as_slice() {
        let corners = corners_at(mesh, *f);
        if corners.has_corner(c) && corners.has_corner(d) {
            return Ok(true);
        }
    }
    Ok(false)
}

/// Whether at each end of an edge a face has its two opposite vertices.
fn may_faces_cancel<S: Surface>(alloc: Global, mesh: &S, s: EdgeFaces) -> Result<bool, NoMemory>
    ensures { IfOk result (λ found. found ≡ may_faces_cancel (S.mesh mesh.now) s) }
{
    if has_face_with(alloc, mesh, s.a, s.c, s.d)? {
        return has_face_with(alloc, mesh, s.b, s.c, s.d);
    }
    Ok(false)
}

/// Whether the ends of an edge have no neighbours in common but its two opposite vertices, and no two faces cancel when it is
/// drawn together: no edge at an end is crowded or has one opposite vertex for both its faces, and at one end no face has both
/// opposite vertices.
pub(crate) fn has_plain_link<S: Surface>(
    alloc: Global,
    mesh: &S,
    u: VertexId,
    v: VertexId,
) -> Result<bool, NoMemory>
    ensures { IfOk result (λ plain. plain ≡ has_plain_link (S.mesh mesh.now) u v) }
{
    let Some(s) = edge_beside(mesh, u, v) else {
        return Ok(false);
    };
    if may_faces_cancel(alloc, mesh, s)? {
        return Ok(false);
    }
    if has_poor_edge(alloc, mesh, s.a)? {
        return Ok(false);
    }
    if has_poor_edge(alloc, mesh, s.b)? {
        return Ok(false);
    }
    let other = has_other_neighbour(alloc, mesh, s)?;
    Ok(!other)
}
