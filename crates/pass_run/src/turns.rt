//! What is asked at a candidate's turn.
ghost use Rattle.std.specs.Prelude.{◌≡◌, ◌≤◌, ⊤, Some, None, if◌then◌else◌, int_lt, nat_le, length, IfOk};
ghost use Rattle.grid_base.specs.declared.TheConstants.{DEPTH_MAX};
ghost use Rattle.mesh_base.specs.Sides.{IsClosed};
ghost use Rattle.mesh_base.specs.Placements.{IsClearMesh};
ghost use Rattle.mesh_base.specs.Kept.{BeginsWith};
ghost use Rattle.edit_base.specs.declared.Asked.TheVariants as asked;
ghost use Rattle.pass_run.specs.Candidates.{is_due, choice_in, limit_of, length_squared};
ghost use Rattle.pass_run.specs.PassLines.{line_of};
ghost use Rattle.pass_run.specs.Results.{exact_answer, line_asked, mesh_then};

use crate::chooser::Chooses;
use crate::lengths::{are_near, is_longer, is_shorter, length_squared};
use edit_any::edit;
use edit_base::{Asked, EdgeFaces, Edit, PassKind, edge_beside, is_crowded, is_edge};
use edit_pinch::fan_count;
use edit_zip::zip_ready;
use grid_base::{DEPTH_MAX, NoMemory};
use log_text::LogLine;
use mesh_base::{Surface, VertexId};
use std::alloc::Global;

/// The length that a pass goes by.
#[inline(always)]
fn limit_of(kind: PassKind) -> u32
    ensures { result ≡ limit_of kind }
{
    match kind {
        PassKind::Split { over } => over,
        PassKind::Collapse { under } => under,
        PassKind::Flip => 0,
        PassKind::Zip { within } => within,
        PassKind::Pinch => 0,
    }
}

/// Whether a split of the edge is due.
#[inline(always)]
fn is_split_due<S: Surface>(mesh: &S, kind: PassKind, a: VertexId, b: VertexId) -> bool
    ensures { result ≡ is_due (S.mesh mesh.now) kind (asked.Split a b) }
{
    is_longer(mesh, a, b, limit_of(kind)) && is_edge(mesh, a, b)
}

/// Whether a collapse of the edge is due.
#[inline(always)]
fn is_collapse_due<S: Surface>(mesh: &S, kind: PassKind, a: VertexId, b: VertexId) -> bool
    ensures { result ≡ is_due (S.mesh mesh.now) kind (asked.Collapse a b) }
{
    is_shorter(mesh, a, b, limit_of(kind)) && is_edge(mesh, a, b)
}

/// Whether the length from one vertex to another is above the distance of the opposite vertices of the faces beside an edge.
fn is_longer_than_across<S: Surface>(mesh: &S, a: VertexId, b: VertexId, e: &EdgeFaces) -> bool
    ensures { let m = S.mesh mesh.now in
        result ≡ int_lt (length_squared m e.now.c e.now.d) (length_squared m a b) }
{
    length_squared(mesh, e.c, e.d) < length_squared(mesh, a, b)
}

/// Whether a flip of the edge is due. Most edges are shorter than across, so that is looked at before whether they are crowded.
#[inline(always)]
pub(crate) fn is_flip_due<S: Surface>(mesh: &S, a: VertexId, b: VertexId) -> bool
    requires { IsClosed (S.mesh mesh.now) }
    ensures { result ≡ is_due (S.mesh mesh.now) PassKind.Flip (asked.Flip a b) }
{
    match edge_beside(mesh, a, b) {
        None => false,
        Some(across) => { is_longer_than_across(mesh, a, b, &across) && !is_crowded(mesh, a, b) }
    }
}

/// Whether a zip of the two edges is due.
fn is_zip_due<S: Surface>(
    mesh: &S,
    kind: PassKind,
    e: (VertexId, VertexId),
    f: (VertexId, VertexId),
) -> bool
    requires { IsClosed (S.mesh mesh.now) }
    ensures { result ≡ is_due (S.mesh mesh.now) kind (asked.Zip e.0 e.1 f.0 f.1) }
{
    let (a, b) = e;
    let (c, d) = f;
    zip_ready(mesh, a, b, c, d) && are_near(mesh, (a, b), (c, d), limit_of(kind))
}

/// Whether what is asked is due.
#[inline(always)]
fn is_due<S: Surface>(
    alloc: Global,
    mesh: &S,
    kind: PassKind,
    what: Asked,
) -> Result<bool, NoMemory>
    requires { IsClosed (S.mesh mesh.now) }
    ensures { IfOk result (λ due. due ≡ is_due (S.mesh mesh.now) kind what) }
{
    match what {
        Asked::Split { a, b } => Ok(is_split_due(mesh, kind, a, b)),
        Asked::Flip { a, b } => Ok(is_flip_due(mesh, a, b)),
        Asked::Collapse { a, b } => Ok(is_collapse_due(mesh, kind, a, b)),
        Asked::Zip { a, b, e, f } => Ok(is_zip_due(mesh, kind, (a, b), (e, f))),
        Asked::Pinch { v } => {
            let fans = fan_count(alloc, mesh, v)?;
            Ok(2 <= fans)
        }
    }
}

/// What is asked where it is due.
#[inline(always)]
fn asked_if(due: bool, what: Asked) -> Option<Asked>
    ensures { result ≡ if due then Some what else None }
{
    if due { Some(what) } else { None }
}

impl Chooses for PassKind {
    ghost can_choose = { λ kind. ⊤ };

    ghost may_choose = { λ kind m what call. call ≡ choice_in kind m what };

    #[inline(always)]
    fn choice<S: Surface>(
        &self,
        alloc: Global,
        mesh: &S,
        what: Asked,
    ) -> Result<Option<Asked>, NoMemory> {
        let asked = &what;
        let due = is_due(alloc, mesh, *self, *asked)?;
        Ok(asked_if(due, *asked))
    }
}

/// The line of an answer.
pub(crate) fn line_of(what: Asked, edit: Edit) -> LogLine
    ensures { result ≡ line_of what edit }
{
    match edit {
        Edit::Done(change) => LogLine::Did(change),
        Edit::No(why) => LogLine::No { what, why },
    }
}

/// The edit that is asked, if one is, and its line. The mesh is made ready for its check first, where what was moved since calls
/// for it.
#[inline(always)]
pub(crate) fn line_of_call<S: Surface>(
    alloc: Global,
    mesh: &mut S,
    depth: u8,
    call: Option<Asked>,
) -> Result<Option<LogLine>, NoMemory>
    requires closed { IsClosed (S.mesh mesh.old) }
    requires clear { IsClearMesh (S.mesh mesh.old) }
    requires depth { depth ≤ DEPTH_MAX }
    ensures line { IfOk result
        (λ line. line ≡ line_asked (exact_answer depth (S.mesh mesh.old)) call) }
    ensures mesh { S.mesh mesh.new ≡ mesh_then (exact_answer depth (S.mesh mesh.old))
        (S.mesh mesh.old) call result }
    ensures closed { IsClosed (S.mesh mesh.new) }
    ensures clear { IsClearMesh (S.mesh mesh.new) }
    ensures marks { BeginsWith (S.kept mesh.new) (S.kept mesh.old) }
{
    let Some(what) = &call else {
        return Ok(None);
    };
    mesh.index();
    let edit = edit(alloc, mesh, depth, *what)?;
    Ok(Some(line_of(*what, edit)))
}
