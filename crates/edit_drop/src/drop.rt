//! The collapses that take a component away are found, and taken back.
ghost use Rattle.std.specs.Prelude.{◌≡◌, ◌≤◌, ◌++◌, None, IfOk};
ghost use Rattle.grid_base.specs.declared.TheConstants.{DEPTH_MAX};
ghost use Rattle.mesh_base.specs.Sides.{IsClosed};
ghost use Rattle.mesh_base.specs.Placements.{IsClearMesh};
ghost use Rattle.mesh_base.specs.Kept.{BeginsWith};
ghost use Rattle.edit_drop.specs.Drop.{after_rounds, done_in_rounds, why_left, drop_collapses, drop_why};

use crate::collapses::{AskedEdits, any_solid};
use crate::rounds::{try_rounds, why_left};
use edit_base::{Asked, Why};
use grid_base::{DEPTH_MAX, Items, NoMemory};
use mesh_base::{Surface, VertexId};
use mesh_measure::component_vertices;
use std::alloc::Global;

// Collapses what can be collapsed, and tells the reason where a vertex is left.
fn try_drop<S: Surface>(
    alloc: Global,
    mesh: &mut S,
    depth: u8,
    vs: &[u32],
    done: &mut AskedEdits,
) -> Result<Option<Why>, NoMemory>
    requires closed { IsClosed (S.mesh mesh.old) }
    requires clear { IsClearMesh (S.mesh mesh.old) }
    requires depth { depth ≤ DEPTH_MAX }
    ensures why { let end = after_rounds vs.now depth vs.now (S.mesh mesh.old) in
        IfOk result (λ why. why ≡ why_left depth vs.now end) }
    ensures done { let more = done_in_rounds vs.now depth vs.now (S.mesh mesh.old) in
        IfOk result (λ _. done.new ≡ done.old ++ more) }
    ensures marks { BeginsWith (S.kept mesh.new) (S.kept mesh.old) }
{
    try_rounds(alloc, mesh, depth, vs, done)?;
    why_left(alloc, mesh, depth, vs)
}

// The same, and all is as it was.
fn try_and_return<S: Surface>(
    alloc: Global,
    mesh: &mut S,
    depth: u8,
    vs: &[u32],
    done: &mut AskedEdits,
) -> Result<Option<Why>, NoMemory>
    requires closed { IsClosed (S.mesh mesh.old) }
    requires clear { IsClearMesh (S.mesh mesh.old) }
    requires depth { depth ≤ DEPTH_MAX }
    ensures why { let end = after_rounds vs.now depth vs.now (S.mesh mesh.old) in
        IfOk result (λ why. why ≡ why_left depth vs.now end) }
    ensures done { let more = done_in_rounds vs.now depth vs.now (S.mesh mesh.old) in
        IfOk result (λ _. done.new ≡ done.old ++ more) }
    ensures mesh { S.mesh mesh.new ≡ S.mesh mesh.old }
    ensures kept { S.kept mesh.new ≡ S.kept mesh.old }
{
    let mark = mesh.mark()?;
    let tried = try_drop(alloc, mesh, depth, vs, done);
    mesh.back_to(mark);
    tried
}

/// The collapses that take away the component of a vertex, one after another, until none of its vertices lives, are put at the end of
/// `asked`; or the reason why they do not: no face is at the vertex; a vertex of the component is solid; or one is left where each collapse
/// of an edge is refused, and then the reason is that against the first. `depth` is the number of time halvings of the written test, at most
/// `DEPTH_MAX`.
///
/// The component are the vertices that chains of faces join with the vertex. Its edges are tried in order, each once, and so again in rounds
/// until one does nothing; no more rounds than it has vertices. The mesh is as it was, next ids included, and so is what was kept, whatever
/// the answer. Nothing is said of `asked` where there is a reason.
pub fn drop_collapses<S: Surface>(
    alloc: Global,
    mesh: &mut S,
    depth: u8,
    v: VertexId,
    asked: &mut Items<Asked>,
) -> Result<Option<Why>, NoMemory>
    requires closed { IsClosed (S.mesh mesh.old) }
    requires clear { IsClearMesh (S.mesh mesh.old) }
    requires depth { depth ≤ DEPTH_MAX }
    ensures why { IfOk result (λ why. why ≡ drop_why depth (S.mesh mesh.old) v) }
    ensures asked { let collapses = drop_collapses depth (S.mesh mesh.old) v in
        IfOk result (λ why. why ≡ None → asked.new ≡ asked.old ++ collapses) }
    ensures mesh { S.mesh mesh.new ≡ S.mesh mesh.old }
    ensures kept { S.kept mesh.new ≡ S.kept mesh.old }
{
    let vs = component_vertices(alloc, mesh, v)?;
    if vs.len() == 0 {
        return Ok(Some(Why::NoEdge));
    }
    if any_solid(mesh, vs.as_slice()) {
        return Ok(Some(Why::Solid));
    }
    try_and_return(alloc, mesh, depth, vs.as_slice(), asked)
}
