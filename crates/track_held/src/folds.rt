//! An edge whose two faces are drawn together, and the edges at a vertex that have more than two faces.
ghost use Rattle.std.specs.Prelude.{◌≡◌, min, max, None, Some, IfOk, IfErr, IsOk};
ghost use Rattle.mesh_base.specs.Sides.{IsClosed};
ghost use Rattle.mesh_base.specs.Pairs.{is_edge};
ghost use Rattle.edit_base.specs.Edges.{edge_of};
ghost use Rattle.edit_base.specs.declared.Asked.TheVariants.{Flip};
ghost use Rattle.track_held.specs.Folds.{fold_why, fold_collapse, fold_vertex, crowded_corner, crowded_among, first_crowded, FindsCrowded, FoldsAskInRange};

use edit_base::{Asked, EdgeFaces, Why, edge_beside, is_crowded, is_edge};
use grid_base::NoMemory;
use mesh_base::{FaceId, Surface, VertexId};
use std::alloc::Global;

/// The edge of two ids with its two faces, or why it is no fold.
pub(crate) fn fold_at<S: Surface>(mesh: &S, a: VertexId, b: VertexId) -> Result<EdgeFaces, Why>
    requires closed { IsClosed (S.mesh mesh.now) }
    ensures edge { IfOk result (λ e. e ≡ edge_of (S.mesh mesh.now) a b) }
    ensures fold { IsOk result →
        fold_why (S.mesh mesh.now) (edge_of (S.mesh mesh.now) a b) ≡ None }
    ensures why { IfErr result (λ why.
        fold_why (S.mesh mesh.now) (edge_of (S.mesh mesh.now) a b) ≡ Some why) }
{
    let Some(e) = edge_beside(mesh, a, b) else {
        return Err(Why::NoEdge);
    };
    if is_crowded(mesh, e.a, e.b) {
        return Err(Why::Crowded);
    }
    if e.c == e.d {
        return Err(Why::Edge);
    }
    Ok(e)
}

/// The collapse that draws the corners opposite an edge together.
pub(crate) fn fold_collapse(e: &EdgeFaces) -> Asked
    ensures { result ≡ fold_collapse e.now }
{
    if e.c <= e.d {
        Asked::Collapse { a: e.c, b: e.d }
    } else {
        Asked::Collapse { a: e.d, b: e.c }
    }
}

/// The flip of an edge.
pub(crate) fn fold_flip(e: &EdgeFaces) -> Asked
    ensures { result ≡ Flip e.now.a e.now.b }
{
    Asked::Flip { a: e.a, b: e.b }
}

/// The vertex into which it draws them.
pub(crate) fn fold_vertex(e: &EdgeFaces) -> VertexId
    ensures { result ≡ fold_vertex e.now }
{
    if e.c <= e.d { e.c } else { e.d }
}

/// Whether the corners opposite an edge are an edge.
pub(crate) fn are_joined<S: Surface>(mesh: &S, e: &EdgeFaces) -> bool
    ensures { result ≡ is_edge (S.mesh mesh.now) (min e.now.c e.now.d) (max e.now.c e.now.d) }
{
    if e.c <= e.d {
        is_edge(mesh, e.c, e.d)
    } else {
        is_edge(mesh, e.d, e.c)
    }
}

// The first corner of a face with which a vertex has a crowded edge.
fn crowded_corner<S: Surface>(mesh: &S, v: VertexId, f: FaceId) -> Option<VertexId>
    ensures { result ≡ crowded_corner (S.mesh mesh.now) v f }
{
    let corners = mesh.corners(f)?;
    let first = corners[0];
    let second = corners[1];
    let third = corners[2];
    if is_crowded(mesh, v, first) {
        Some(first)
    } else if is_crowded(mesh, v, second) {
        Some(second)
    } else if is_crowded(mesh, v, third) {
        Some(third)
    } else {
        None
    }
}

// The first of these faces' corners with which it has one.
fn crowded_among<S: Surface>(mesh: &S, v: VertexId, faces: &[FaceId]) -> Option<VertexId>
    ensures { result ≡ crowded_among (S.mesh mesh.now) v faces.now }
{
    for f in faces {
        if let Some(w) = crowded_corner(mesh, v, *f) {
            return Some(w);
        }
    }
    None
}

/// The other end of the first crowded edge at a vertex, by the faces at it. Refuses only where there is no memory.
pub(crate) fn first_crowded<S: Surface>(
    alloc: Global,
    mesh: &S,
    v: VertexId,
) -> Result<Option<VertexId>, NoMemory>
    ensures first { IfOk result (λ found. found ≡ first_crowded (S.mesh mesh.now) v) }
    ensures none { IfOk result (λ found. FindsCrowded (S.mesh mesh.now) v found) }
{
    let mut ids = Vec::new(alloc);
    mesh.faces_at(v, &mut ids)?;
    Ok(crowded_among(mesh, v, ids.as_slice()))
}

/// The edits that close a fold are in the log's ranges, so that their lines are read again.
pub fn folds_ask_in_range()
    ensures { FoldsAskInRange }
{}
