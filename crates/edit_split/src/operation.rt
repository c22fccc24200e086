ghost use Rattle.std.specs.Prelude.{◌≡◌, ◌≤◌, IfOk, OnOk};
ghost use Rattle.grid_decided.specs.Decided.{meets_exactly};
ghost use Rattle.mesh_base.specs.Sides.{IsClosed};
ghost use Rattle.mesh_base.specs.Placements.{IsClearMesh};
ghost use Rattle.mesh_base.specs.Kept.{BeginsWith};
ghost use Rattle.edit_base.specs.declared.answers.Edit.TheVariants.{No};
ghost use Rattle.edit_base.specs.Edges.{edge_of};
ghost use Rattle.edit_split.specs.Split.{split_mesh, split_point, split_scaffold};
ghost use Rattle.edit_base.specs.Scaffold.{first_failing};
ghost use Rattle.edit_split.specs.Answer.{split_answer};
ghost use Rattle.edit_base.specs.Clauses.{mesh_after_call, KeepsOnNo, MovesClearOnDone, OnOkIs, OnErrRefuses};
ghost use Rattle.edit_split.specs.Done.{split_result, split_tested_on};
ghost use Rattle.edit_split.specs.Tried.{MayBeTried};

use crate::acts::{apply_split, is_split_over, split_point};
use edit_acts::exact_mid;
use edit_base::{Change, EdgeFaces, Edit, Move, Touch, Why, edge_beside, is_crowded};
use edit_check::check;
use grid_base::{DEPTH_MAX, NoMemory, Point};
use mesh_base::{PairName, Surface, VertexId};
use std::alloc::Global;

/// The edge of two ids with the faces beside it, if its split may be tried, and else why it is not split.
fn edge_to_split<S: Surface>(mesh: &S, a: VertexId, b: VertexId) -> Result<EdgeFaces, Why>
    requires closed { IsClosed (S.mesh mesh.now) }
    ensures edge { OnOkIs result (edge_of (S.mesh mesh.now) a b) }
    ensures tried { IfOk result (λ e. MayBeTried (S.mesh mesh.now) e) }
    ensures refused { OnErrRefuses result (split_answer meets_exactly (S.mesh mesh.now) a b) }
{
    match edge_beside(mesh, a, b) {
        None => Err(Why::NoEdge),
        Some(e) => {
            if is_crowded(mesh, e.a, e.b) {
                Err(Why::Crowded)
            } else if is_split_over(mesh) {
                Err(Why::Full)
            } else {
                Ok(e)
            }
        }
    }
}

/// Splits an edge at a point, and answers the first pair that does not pass while the new vertex goes there from the exact
/// midpoint. Where memory is wanting, some of the split may be done.
fn put_and_check<S: Surface>(
    alloc: Global,
    mesh: &mut S,
    e: &EdgeFaces,
    at: Point,
    depth: u8,
) -> Result<Option<PairName>, NoMemory>
    requires closed { IsClosed (S.mesh mesh.old) }
    requires clear { IsClearMesh (S.mesh mesh.old) }
    requires depth { depth ≤ DEPTH_MAX }
    requires tried { MayBeTried (S.mesh mesh.old) e.now }
    requires point { at ≡ split_point (S.mesh mesh.old) e.now }
    ensures first { OnOkIs result
        (first_failing meets_exactly (split_scaffold (S.mesh mesh.old) e.now) depth) }
    ensures made { OnOk result (S.mesh mesh.new ≡ split_mesh (S.mesh mesh.old) e.now at) }
    ensures marks { BeginsWith (S.kept mesh.new) (S.kept mesh.old) }
{
    let fresh_from = mesh.next_face();
    let way = Move {
        v: VertexId(mesh.next_vertex()),
        start: exact_mid(mesh, e.a, e.b),
        end: at.doubled(),
    };
    apply_split(mesh, e, at)?;
    check(alloc, mesh, &[way], Touch::Never, &[], fresh_from, depth)
}

/// Splits an edge whose split may be tried, or leaves all as it was.
fn split_or_go_back<S: Surface>(
    alloc: Global,
    mesh: &mut S,
    e: &EdgeFaces,
    depth: u8,
) -> Result<Edit, NoMemory>
    requires closed { IsClosed (S.mesh mesh.old) }
    requires clear { IsClearMesh (S.mesh mesh.old) }
    requires depth { depth ≤ DEPTH_MAX }
    requires tried { MayBeTried (S.mesh mesh.old) e.now }
    ensures answer { OnOkIs result
        (split_answer meets_exactly (S.mesh mesh.old) e.now.a e.now.b depth) }
    ensures mesh { S.mesh mesh.new ≡ mesh_after_call split_result (S.mesh mesh.old) result }
    ensures marks { BeginsWith (S.kept mesh.new) (S.kept mesh.old) }
    ensures kept { KeepsOnNo result (S.kept mesh.new) (S.kept mesh.old) }
{
    let at = split_point(mesh, e);
    let w = VertexId(mesh.next_vertex());
    let mark = mesh.mark()?;
    match put_and_check(alloc, mesh, e, at, depth) {
        Ok(None) => Ok(Edit::Done(Change::Split {
            a: e.a,
            b: e.b,
            w,
            at,
        })),
        Ok(Some(p)) => {
            mesh.back_to(mark);
            Ok(Edit::No(Why::Hit(p)))
        }
        Err(fault) => {
            mesh.back_to(mark);
            Err(fault)
        }
    }
}

/// Splits the edge of two ids, in any order: the two faces beside it are dropped, and four are made round a new vertex at
/// its midpoint, each component rounded down.
///
/// The answer is exact. It is Done with the edge, smaller end first, the new vertex and its point; or No with the first
/// reason that holds: the ids are no edge, the edge is crowded, the split mesh would pass a limit, or, of all pairs of the
/// split mesh in order, the first that does not pass, to the depth, while the new vertex goes from the exact midpoint to
/// its point. After No, and where memory is wanting, the mesh is as it was, next ids included, and so is what was kept.
///
/// A split keeps the mesh closed and clear, and no pair meets at any fraction of that motion. After the edge split of El
/// Topo (Brochu and Bridson 2009).
pub fn split<S: Surface>(
    alloc: Global,
    mesh: &mut S,
    a: VertexId,
    b: VertexId,
    depth: u8,
) -> Result<Edit, NoMemory>
    requires closed { IsClosed (S.mesh mesh.old) }
    requires clear { IsClearMesh (S.mesh mesh.old) }
    requires depth { depth ≤ DEPTH_MAX }
    ensures answer { OnOkIs result (split_answer meets_exactly (S.mesh mesh.old) a b depth) }
    ensures mesh { S.mesh mesh.new ≡ mesh_after_call split_result (S.mesh mesh.old) result }
    // The mesh stays closed and clear.
    ensures closed { IsClosed (S.mesh mesh.new) }
    ensures clear { IsClearMesh (S.mesh mesh.new) }
    // From the edge to its two halves nothing meets.
    ensures motion { IfOk result (λ edit. MovesClearOnDone split_tested_on (S.mesh mesh.old) edit) }
    ensures marks { BeginsWith (S.kept mesh.new) (S.kept mesh.old) }
    ensures kept { KeepsOnNo result (S.kept mesh.new) (S.kept mesh.old) }
{
    match edge_to_split(mesh, a, b) {
        Ok(e) => split_or_go_back(alloc, mesh, &e, depth),
        Err(why) => Ok(Edit::No(why)),
    }
}
