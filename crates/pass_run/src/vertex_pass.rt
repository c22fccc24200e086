//! A pass over vertices: each at its turn, unless its faces are known to be one fan.
ghost use Rattle.std.specs.Prelude.{◌≡◌, ◌≤◌, ◌+◌, false, map, IfOk};
ghost use Rattle.std.specs.FinMap as finite;
ghost use Rattle.grid_base.specs.declared.TheConstants.{DEPTH_MAX};
ghost use Rattle.mesh_base.specs.Sides.{IsClosed};
ghost use Rattle.mesh_base.specs.Placements.{IsClearMesh};
ghost use Rattle.edit_base.specs.declared.Asked.TheVariants as asked;
ghost use Rattle.pass_run.specs.Candidates.{is_due, all_pinches};
ghost use Rattle.pass_run.specs.PassLines.{exactly, lines_of, lines_from};
ghost use Rattle.pass_run.specs.Calls.{PassTells};

use crate::chooser::Chooses;
use crate::passes::{PassCount, is_over, no_edit, sum, take_one};
use crate::terms::PassTerms;
use crate::vertex_rims::{VertexLists, is_one_fan};
use edit_base::{Asked, PassKind};
use grid_base::{DEPTH_MAX, NoMemory};
use log_write::Listener;
use mesh_base::{Surface, VertexId, live_vertices};
use outside_io::Stop;
use std::alloc::Global;

/// Whether a pinch of the vertex may be due. Where it may not, it is not.
fn may_be_due<S: Surface>(
    mesh: &S,
    kind: PassKind,
    v: VertexId,
    lists: &mut VertexLists,
) -> Result<bool, NoMemory>
    ensures { IfOk result
        (λ may. may ≡ false → is_due (S.mesh mesh.now) kind (asked.Pinch v) ≡ false) }
{
    let one = is_one_fan(mesh, v, lists)?;
    Ok(!one)
}

/// A vertex at its turn: what is due is asked.
fn take_vertex<S: Surface, O: Listener>(
    alloc: Global,
    mesh: &mut S,
    terms: PassTerms,
    v: VertexId,
    outside: &mut O,
) -> Result<PassCount, Stop>
    requires closed { IsClosed (S.mesh mesh.old) }
    requires clear { IsClearMesh (S.mesh mesh.old) }
    requires depth { terms.depth ≤ DEPTH_MAX }
    ensures takes { PassTells S.mesh S.kept O.around mesh outside
        (λ m. lines_of (exactly terms) m (asked.Pinch v)) result }
    ensures sum { IfOk result (λ count. count.done + count.refused ≤ 1) }
{
    let kind = terms.kind;
    let call = kind.choice(alloc, mesh, Asked::Pinch { v })?;
    take_one(alloc, mesh, terms.depth, call, outside)
}

/// The pinches of all vertices, each at its turn.
pub(crate) fn take_vertices<S: Surface, O: Listener>(
    alloc: Global,
    mesh: &mut S,
    terms: PassTerms,
    outside: &mut O,
) -> Result<PassCount, Stop>
    requires closed { IsClosed (S.mesh mesh.old) }
    requires clear { IsClearMesh (S.mesh mesh.old) }
    requires depth { terms.depth ≤ DEPTH_MAX }
    ensures { PassTells S.mesh S.kept O.around mesh outside
        (λ m. lines_from (exactly terms) m (all_pinches m)) result }
{
    let vertices = live_vertices(alloc, mesh)?;
    let mut lists = VertexLists::new(alloc);
    let mut count = no_edit();
    for v in vertices.as_slice() {
        let may = may_be_due(mesh, terms.kind, *v, &mut lists)?;
        if may {
            if is_over(terms.grouped, count) {
                return Ok(count);
            }
            let more = take_vertex(alloc, mesh, terms, *v, outside)?;
            count = sum(count, more);
        }
    }
    Ok(count)
}
