//! The pinch itself: its reasons, its test and its changes under a mark.
ghost use Rattle.std.specs.Prelude.{◌≡◌, ◌≤◌, drop, IfOk, OnOk};
ghost use Rattle.grid_base.specs.declared.TheConstants.{HALF_MAX};
ghost use Rattle.grid_base.specs.Triples.{IsWithin};
ghost use Rattle.grid_decided.specs.Decided.{meets_exactly};
ghost use Rattle.mesh_base.specs.Sides.{IsClosed};
ghost use Rattle.mesh_base.specs.Placements.{IsClearMesh};
ghost use Rattle.mesh_base.specs.Kept.{BeginsWith};
ghost use Rattle.edit_base.specs.Scaffold.{first_failing};
ghost use Rattle.edit_pinch.specs.Pinch.{fans, first_point, later_copies, moves_from, vertex_and_copies, pinch_scaffold};
ghost use Rattle.edit_pinch.specs.Answer.{pinch_answer};
ghost use Rattle.edit_base.specs.Clauses.{mesh_after_call, KeepsOnNo, MovesClearOnDone, OnOkIs};
ghost use Rattle.edit_pinch.specs.Done.{pinch_result, pinch_tested_on};
ghost use Rattle.edit_pinch.specs.Tried.{KeepsUnlessMade, MayBeTried, left_by};

use crate::changes::{apply_pinch, is_over};
use crate::copy_points::{copies_for, fan_point};
use crate::vertex_fans::{Fan, fans};
use edit_base::{Change, CopyAt, Edit, Move, Touch, Why};
use edit_check::check;
use grid_base::{DEPTH_MAX, Items, NoMemory, Point, Wide};
use mesh_base::{PairName, Surface, VertexId, point_of};
use std::alloc::Global;

/// The ways of a vertex and its copies from where it stands, in half units.
fn moves_of(
    alloc: Global,
    here: Wide,
    v: VertexId,
    at: Point,
    copies: &[CopyAt],
) -> Result<Items<Move>, NoMemory>
    requires { IsWithin HALF_MAX here }
    ensures { OnOkIs result (moves_from here v at copies.now) }
{
    let mut moves = Items::new(alloc);
    moves.push(Move {
        v,
        start: here,
        end: at.doubled(),
    })?;
    for copy in copies {
        moves.push(Move {
            v: copy.w,
            start: here,
            end: copy.at.doubled(),
        })?;
    }
    Ok(moves)
}

/// A vertex and its copies.
fn together_of(alloc: Global, v: VertexId, copies: &[CopyAt]) -> Result<Items<VertexId>, NoMemory>
    ensures { OnOkIs result (vertex_and_copies v copies.now) }
{
    let mut together = Items::new(alloc);
    together.push(v)?;
    for copy in copies {
        together.push(copy.w)?;
    }
    Ok(together)
}

/// Makes the changes of a pinch, with the fans after the first, the point of the first and the copies for the others, and
/// answers the first pair that is not as required while the vertex and its copies go apart. Some of the changes may be made
/// where memory is wanting.
fn put_and_check<S: Surface>(
    alloc: Global,
    mesh: &mut S,
    v: VertexId,
    others: &[Fan],
    at: Point,
    copies: &[CopyAt],
    depth: u8,
) -> Result<Option<PairName>, NoMemory>
    requires closed { IsClosed (S.mesh mesh.old) }
    requires clear { IsClearMesh (S.mesh mesh.old) }
    requires depth { depth ≤ DEPTH_MAX }
    requires tried { MayBeTried (S.mesh mesh.old) v }
    requires others { others.now ≡ drop 1 (fans (S.mesh mesh.old) v) }
    requires point { at ≡ first_point (S.mesh mesh.old) v }
    requires copies { copies.now ≡ later_copies (S.mesh mesh.old) v }
    ensures first { OnOkIs result
        (first_failing meets_exactly (pinch_scaffold (S.mesh mesh.old) v) depth) }
    ensures made { OnOk result (S.mesh mesh.new ≡ (pinch_scaffold (S.mesh mesh.old) v).mesh) }
    ensures marks { BeginsWith (S.kept mesh.new) (S.kept mesh.old) }
{
    let fresh_from = mesh.next_face();
    let here = point_of(mesh, v).doubled();
    let moves = moves_of(alloc, here, v, at, copies)?;
    let together = together_of(alloc, v, copies)?;
    apply_pinch(mesh, v, at, others, copies)?;
    check(
        alloc,
        mesh,
        moves.as_slice(),
        Touch::Start,
        together.as_slice(),
        fresh_from,
        depth,
    )
}

/// Tries a pinch, and answers the first pair that is not as required. Where there is none, its changes are made, and else all
/// is left as it was, what was kept included.
fn apply_or_roll_back<S: Surface>(
    alloc: Global,
    mesh: &mut S,
    v: VertexId,
    others: &[Fan],
    at: Point,
    copies: &[CopyAt],
    depth: u8,
) -> Result<Option<PairName>, NoMemory>
    requires closed { IsClosed (S.mesh mesh.old) }
    requires clear { IsClearMesh (S.mesh mesh.old) }
    requires depth { depth ≤ DEPTH_MAX }
    requires tried { MayBeTried (S.mesh mesh.old) v }
    requires others { others.now ≡ drop 1 (fans (S.mesh mesh.old) v) }
    requires point { at ≡ first_point (S.mesh mesh.old) v }
    requires copies { copies.now ≡ later_copies (S.mesh mesh.old) v }
    ensures first { OnOkIs result
        (first_failing meets_exactly (pinch_scaffold (S.mesh mesh.old) v) depth) }
    ensures mesh { let m = S.mesh mesh.old in
        S.mesh mesh.new ≡ left_by m (pinch_scaffold m v).mesh result }
    ensures marks { BeginsWith (S.kept mesh.new) (S.kept mesh.old) }
    ensures kept { KeepsUnlessMade result (S.kept mesh.new) (S.kept mesh.old) }
{
    let mark = mesh.mark()?;
    match put_and_check(alloc, mesh, v, others, at, copies, depth) {
        Ok(None) => Ok(None),
        Ok(Some(p)) => {
            mesh.back_to(mark);
            Ok(Some(p))
        }
        Err(fault) => {
            mesh.back_to(mark);
            Err(fault)
        }
    }
}

/// Pinches a vertex whose pinch may be tried, with its fans, or leaves all as it was.
fn pinch_or_leave<S: Surface>(
    alloc: Global,
    mesh: &mut S,
    v: VertexId,
    parts: &[Fan],
    depth: u8,
) -> Result<Edit, NoMemory>
    requires closed { IsClosed (S.mesh mesh.old) }
    requires clear { IsClearMesh (S.mesh mesh.old) }
    requires depth { depth ≤ DEPTH_MAX }
    requires tried { MayBeTried (S.mesh mesh.old) v }
    requires fans { parts.now ≡ fans (S.mesh mesh.old) v }
    ensures answer { OnOkIs result (pinch_answer meets_exactly (S.mesh mesh.old) v depth) }
    ensures mesh { S.mesh mesh.new ≡ mesh_after_call pinch_result (S.mesh mesh.old) result }
    ensures marks { BeginsWith (S.kept mesh.new) (S.kept mesh.old) }
    ensures kept { KeepsOnNo result (S.kept mesh.new) (S.kept mesh.old) }
{
    let others = &parts[1..];
    let at = fan_point(alloc, mesh, v, parts[0].as_slice())?;
    let copies = copies_for(alloc, mesh, v, others)?;
    match apply_or_roll_back(alloc, mesh, v, others, at, copies.as_slice(), depth)? {
        Some(p) => Ok(Edit::No(Why::Hit(p))),
        None => Ok(Edit::Done(Change::Pinch { v, at, copies })),
    }
}

/// Makes the changes of a pinch that may be tried, with its fans. Where memory is wanting, some of them may be made.
fn put_parts<S: Surface>(
    mesh: &mut S,
    v: VertexId,
    parts: &[Fan],
    at: Point,
    copies: &[CopyAt],
) -> Result<(), NoMemory>
    requires closed { IsClosed (S.mesh mesh.old) }
    requires tried { MayBeTried (S.mesh mesh.old) v }
    requires fans { parts.now ≡ fans (S.mesh mesh.old) v }
    requires point { at ≡ first_point (S.mesh mesh.old) v }
    requires copies { copies.now ≡ later_copies (S.mesh mesh.old) v }
    ensures made { OnOk result (S.mesh mesh.new ≡ (pinch_scaffold (S.mesh mesh.old) v).mesh) }
    ensures marks { BeginsWith (S.kept mesh.new) (S.kept mesh.old) }
{
    let others = &parts[1..];
    apply_pinch(mesh, v, at, others, copies)?;
    Ok(())
}

/// Makes the changes of a pinch that may be tried, where the point of its first fan and the copies for the others are known: the mesh
/// on which the pinch is tested. Where memory is wanting, some of them may be made.
pub fn put_pinch<S: Surface>(
    alloc: Global,
    mesh: &mut S,
    v: VertexId,
    at: Point,
    copies: &[CopyAt],
) -> Result<(), NoMemory>
    requires closed { IsClosed (S.mesh mesh.old) }
    requires tried { MayBeTried (S.mesh mesh.old) v }
    requires point { at ≡ first_point (S.mesh mesh.old) v }
    requires copies { copies.now ≡ later_copies (S.mesh mesh.old) v }
    ensures made { OnOk result (S.mesh mesh.new ≡ (pinch_scaffold (S.mesh mesh.old) v).mesh) }
    ensures marks { BeginsWith (S.kept mesh.new) (S.kept mesh.old) }
{
    let parts = fans(alloc, mesh, v)?;
    put_parts(mesh, v, parts.as_slice(), at, copies)
}

/// Pinches a vertex at which several fans of faces meet: the first fan, by its least face, keeps the vertex, and each later
/// one gets a copy with the next vertex id. The faces of a later fan are dropped and made again with the copy in the place
/// of the vertex, fan by fan and in rising order of their ids, under the next face ids. The vertex and its copies go from
/// its point by an eighth of the way to the mean of the other vertices of their own fans, each component rounded toward
/// zero. The copies are not solid.
///
/// The answer is exact. It is Done with the vertex, its point, and the copies with theirs; or No with the first reason that
/// holds: fewer than two fans meet at the vertex, as at one that is not live; it is solid; the result would pass a limit;
/// or, of all pairs of the result in order, the first that does not open where its two members hold two of the vertex and
/// its copies, or else does not pass, to the depth, while they go from the one point to their own. After No, and where
/// memory is wanting, the mesh is as it was, next ids included, and so is what was kept.
///
/// A pinch keeps the mesh closed and clear, and no pair meets at any fraction of that motion but its start. After the vertex
/// separation of El Topo (Brochu and Bridson 2009).
pub fn pinch<S: Surface>(
    alloc: Global,
    mesh: &mut S,
    v: VertexId,
    depth: u8,
) -> Result<Edit, NoMemory>
    requires closed { IsClosed (S.mesh mesh.old) }
    requires clear { IsClearMesh (S.mesh mesh.old) }
    requires depth { depth ≤ DEPTH_MAX }
    ensures answer { OnOkIs result (pinch_answer meets_exactly (S.mesh mesh.old) v depth) }
    ensures mesh { S.mesh mesh.new ≡ mesh_after_call pinch_result (S.mesh mesh.old) result }
    // The mesh stays closed and clear.
    ensures closed { IsClosed (S.mesh mesh.new) }
    ensures clear { IsClearMesh (S.mesh mesh.new) }
    // Once the vertex and its copies have left its point nothing meets.
    ensures motion { IfOk result (λ edit. MovesClearOnDone pinch_tested_on (S.mesh mesh.old) edit) }
    ensures marks { BeginsWith (S.kept mesh.new) (S.kept mesh.old) }
    ensures kept { KeepsOnNo result (S.kept mesh.new) (S.kept mesh.old) }
{
    let parts = fans(alloc, mesh, v)?;
    if parts.len() < 2 {
        Ok(Edit::No(Why::OneFan))
    } else if mesh.solid(v) {
        Ok(Edit::No(Why::Solid))
    } else if is_over(mesh, &parts.as_slice()[1..]) {
        Ok(Edit::No(Why::Full))
    } else {
        pinch_or_leave(alloc, mesh, v, parts.as_slice(), depth)
    }
}
