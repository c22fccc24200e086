//! The collapse itself: its reasons, its test and its changes under a mark.
ghost use Rattle.std.specs.Prelude.{◌≡◌, ◌≢◌, ◌≤◌, true, false, IfOk, OnOk, OnErr};
ghost use Rattle.grid_base.specs.declared.TheConstants.{HALF_MAX};
ghost use Rattle.grid_base.specs.Triples.{IsWithin};
ghost use Rattle.grid_decided.specs.Decided.{meets_exactly};
ghost use Rattle.mesh_base.specs.Sides.{IsClosed};
ghost use Rattle.mesh_base.specs.Pairs.{is_edge};
ghost use Rattle.mesh_base.specs.Placements.{IsClearMesh};
ghost use Rattle.mesh_base.specs.Kept.{BeginsWith};
ghost use Rattle.edit_collapse.specs.Collapse.{are_both_solid, collapse_mesh, collapse_point, collapse_scaffold};
ghost use Rattle.edit_base.specs.Scaffold.{first_failing, move_from_rest};
ghost use Rattle.edit_collapse.specs.Answer.{answer_of, collapse_answer};
ghost use Rattle.edit_base.specs.Clauses.{mesh_after_call, KeepsOnNo, MovesClearOnDone, OnOkIs};
ghost use Rattle.edit_collapse.specs.Done.{collapse_result, collapse_tested_on};
ghost use Rattle.edit_check.specs.Untouched.{MoveFits};
ghost use Rattle.edit_collapse.specs.Tried.{left_at, MayBeTried};

use crate::cancellation::LeftFaces;
use crate::changes::{apply_collapse, is_doubled, is_over, left_at};
use edit_base::{Change, Edit, Move, Touch, Why, is_edge};
use edit_check::check;
use grid_base::{DEPTH_MAX, NoMemory, Point, Wide, floor_mid};
use mesh_base::{PairName, Surface, VertexId, point_of};
use std::alloc::Global;

/// Whether both ends are solid, so that neither may move.
fn are_both_solid<S: Surface>(mesh: &S, a: VertexId, b: VertexId) -> bool
    ensures { result ≡ are_both_solid (S.mesh mesh.now) a b }
{
    mesh.solid(a) && mesh.solid(b)
}

/// Where the two ends go: to the end that is solid, or, where neither is, to the midpoint, each component rounded down.
fn collapse_point<S: Surface>(mesh: &S, a: VertexId, b: VertexId) -> Point
    ensures { result ≡ collapse_point (S.mesh mesh.now) a b }
{
    if mesh.solid(a) {
        point_of(mesh, a)
    } else if mesh.solid(b) {
        point_of(mesh, b)
    } else {
        floor_mid(point_of(mesh, a), point_of(mesh, b))
    }
}

/// The move of a vertex from where it stands.
fn move_to<S: Surface>(mesh: &S, v: VertexId, end: Wide) -> Move
    requires { IsWithin HALF_MAX end }
    ensures value { result ≡ move_from_rest (S.mesh mesh.now) v end }
    ensures fits { MoveFits result }
{
    Move {
        v,
        start: point_of(mesh, v).doubled(),
        end,
    }
}

/// The first pair that is not as required while the two ends go to one point.
fn first_hit<S: Surface>(
    alloc: Global,
    mesh: &S,
    a: VertexId,
    b: VertexId,
    at: Point,
    depth: u8,
) -> Result<Option<PairName>, NoMemory>
    requires clear { IsClearMesh (S.mesh mesh.now) }
    requires depth { depth ≤ DEPTH_MAX }
    ensures { OnOkIs result
        (first_failing meets_exactly (collapse_scaffold (S.mesh mesh.now) a b at) depth) }
{
    let end = at.doubled();
    let first = move_to(mesh, a, end);
    let second = move_to(mesh, b, end);
    check(
        alloc,
        mesh,
        &[first, second],
        Touch::End,
        &[a, b],
        mesh.next_face(),
        depth,
    )
}

/// Makes the changes of a collapse, or leaves all as it was where memory is wanting.
fn apply_or_roll_back<S: Surface>(
    alloc: Global,
    mesh: &mut S,
    a: VertexId,
    b: VertexId,
    left: &LeftFaces,
    at: Point,
) -> Result<(), NoMemory>
    requires closed { IsClosed (S.mesh mesh.old) }
    requires apart { a ≢ b }
    requires tried { MayBeTried (S.mesh mesh.old) a b }
    requires left { left.now ≡ left_at (S.mesh mesh.old) a b }
    ensures made { OnOk result (S.mesh mesh.new ≡ collapse_mesh (S.mesh mesh.old) a b at) }
    ensures left { OnErr result (S.mesh mesh.new ≡ S.mesh mesh.old) }
    ensures marks { BeginsWith (S.kept mesh.new) (S.kept mesh.old) }
    ensures kept { OnErr result (S.kept mesh.new ≡ S.kept mesh.old) }
{
    let mark = mesh.mark()?;
    let done = apply_collapse(alloc, mesh, a, b, left, at);
    if done.is_err() {
        mesh.back_to(mark);
    }
    done
}

/// Collapses an edge whose collapse may be tried, or leaves all as it was.
fn collapse_or_leave<S: Surface>(
    alloc: Global,
    mesh: &mut S,
    a: VertexId,
    b: VertexId,
    left: &LeftFaces,
    depth: u8,
) -> Result<Edit, NoMemory>
    requires closed { IsClosed (S.mesh mesh.old) }
    requires clear { IsClearMesh (S.mesh mesh.old) }
    requires depth { depth ≤ DEPTH_MAX }
    requires apart { a ≢ b }
    requires tried { MayBeTried (S.mesh mesh.old) a b }
    requires left { left.now ≡ left_at (S.mesh mesh.old) a b }
    ensures answer { OnOkIs result (answer_of meets_exactly (S.mesh mesh.old) a b depth) }
    ensures mesh { S.mesh mesh.new ≡ mesh_after_call collapse_result (S.mesh mesh.old) result }
    ensures marks { BeginsWith (S.kept mesh.new) (S.kept mesh.old) }
    ensures kept { KeepsOnNo result (S.kept mesh.new) (S.kept mesh.old) }
{
    let at = collapse_point(mesh, a, b);
    match first_hit(alloc, mesh, a, b, at, depth)? {
        Some(p) => Ok(Edit::No(Why::Hit(p))),
        None => {
            apply_or_roll_back(alloc, mesh, a, b, left, at)?;
            Ok(Edit::Done(Change::Collapse { a, b, at }))
        }
    }
}

/// Collapses an edge of which an end may move, or leaves all as it was: the other reasons.
fn collapse_movable<S: Surface>(
    alloc: Global,
    mesh: &mut S,
    a: VertexId,
    b: VertexId,
    depth: u8,
) -> Result<Edit, NoMemory>
    requires closed { IsClosed (S.mesh mesh.old) }
    requires clear { IsClearMesh (S.mesh mesh.old) }
    requires depth { depth ≤ DEPTH_MAX }
    requires apart { a ≢ b }
    requires edge { is_edge (S.mesh mesh.old) a b ≡ true }
    requires may_move { are_both_solid (S.mesh mesh.old) a b ≡ false }
    ensures answer { OnOkIs result (answer_of meets_exactly (S.mesh mesh.old) a b depth) }
    ensures mesh { S.mesh mesh.new ≡ mesh_after_call collapse_result (S.mesh mesh.old) result }
    ensures marks { BeginsWith (S.kept mesh.new) (S.kept mesh.old) }
    ensures kept { KeepsOnNo result (S.kept mesh.new) (S.kept mesh.old) }
{
    let left = left_at(alloc, mesh, a, b)?;
    let doubled = is_doubled(alloc, &left)?;
    if doubled {
        Ok(Edit::No(Why::Doubled))
    } else if is_over(alloc, mesh, a, b)? {
        Ok(Edit::No(Why::Full))
    } else {
        collapse_or_leave(alloc, mesh, a, b, &left, depth)
    }
}

/// The same of two ids in order: reason by reason.
fn collapse_ordered<S: Surface>(
    alloc: Global,
    mesh: &mut S,
    a: VertexId,
    b: VertexId,
    depth: u8,
) -> Result<Edit, NoMemory>
    requires closed { IsClosed (S.mesh mesh.old) }
    requires clear { IsClearMesh (S.mesh mesh.old) }
    requires depth { depth ≤ DEPTH_MAX }
    requires ordered { a ≤ b }
    ensures ordered { a ≤ b }
    ensures answer { OnOkIs result (answer_of meets_exactly (S.mesh mesh.old) a b depth) }
    ensures mesh { S.mesh mesh.new ≡ mesh_after_call collapse_result (S.mesh mesh.old) result }
    ensures marks { BeginsWith (S.kept mesh.new) (S.kept mesh.old) }
    ensures kept { KeepsOnNo result (S.kept mesh.new) (S.kept mesh.old) }
{
    if !is_edge(mesh, a, b) {
        return Ok(Edit::No(Why::NoEdge));
    }
    if are_both_solid(mesh, a, b) {
        return Ok(Edit::No(Why::Solid));
    }
    collapse_movable(alloc, mesh, a, b, depth)
}

/// Collapses the edge of two ids, in any order, to the end that is solid, or, where neither is, to its midpoint, each
/// component rounded down: the faces that hold both are dropped, those at the larger end are made again at the smaller,
/// faces at the smaller end that are then opposite to each other are dropped by two, and so are the larger end and the
/// vertices that have no face any more. The smaller end, if it is left, is solid where either was. A crowded edge may be
/// collapsed.
///
/// The answer is exact. It is Done with the edge, smaller end first, and its point; or No with the first reason that holds:
/// the ids are no edge, both are solid, two faces of the result would be equal up to rotation, it would pass a limit, or, of
/// all pairs in order, the first that does not pass, or close where one member holds the one end and the other the other,
/// to the depth, while both ends go to the point. After No, and where memory is wanting, the mesh is as it was, next
/// ids included, and so is what was kept.
///
/// A collapse keeps the mesh closed and clear, and no pair meets at any fraction of that motion but its end. After the edge
/// collapse of El Topo (Brochu and Bridson 2009).
pub fn collapse<S: Surface>(
    alloc: Global,
    mesh: &mut S,
    a: VertexId,
    b: VertexId,
    depth: u8,
) -> Result<Edit, NoMemory>
    requires closed { IsClosed (S.mesh mesh.old) }
    requires clear { IsClearMesh (S.mesh mesh.old) }
    requires depth { depth ≤ DEPTH_MAX }
    ensures answer { OnOkIs result (collapse_answer meets_exactly (S.mesh mesh.old) a b depth) }
    ensures mesh { S.mesh mesh.new ≡ mesh_after_call collapse_result (S.mesh mesh.old) result }
    // The mesh stays closed and clear.
    ensures closed { IsClosed (S.mesh mesh.new) }
    ensures clear { IsClearMesh (S.mesh mesh.new) }
    // Until both ends are at the point nothing meets.
    ensures motion { IfOk result
        (λ edit. MovesClearOnDone collapse_tested_on (S.mesh mesh.old) edit) }
    ensures marks { BeginsWith (S.kept mesh.new) (S.kept mesh.old) }
    ensures kept { KeepsOnNo result (S.kept mesh.new) (S.kept mesh.old) }
{
    if a <= b {
        collapse_ordered(alloc, mesh, a, b, depth)
    } else {
        collapse_ordered(alloc, mesh, b, a, depth)
    }
}
