//! The flip itself.
ghost use Rattle.std.specs.Prelude.{◌≡◌, ◌≤◌, IfOk, OnOk, OnErr};
ghost use Rattle.grid_decided.specs.Decided.{meets_exactly};
ghost use Rattle.mesh_base.specs.Sides.{IsClosed};
ghost use Rattle.mesh_base.specs.Placements.{IsClearMesh};
ghost use Rattle.mesh_base.specs.Kept.{BeginsWith};
ghost use Rattle.edit_flip.specs.Flip.{flip_mesh};
ghost use Rattle.edit_flip.specs.Answer.{flip_answer};
ghost use Rattle.edit_base.specs.Clauses.{mesh_after_call, KeepsOnNo, MovesClearOnDone, OnOkIs};
ghost use Rattle.edit_flip.specs.Done.{flip_result, flip_tested_on};
ghost use Rattle.edit_flip.specs.Tried.{MayBeTried};

use crate::flip_test::{edge_to_flip, first_hit};
use edit_acts::make_faces;
use edit_base::{Change, EdgeFaces, Edit, Why};
use grid_base::{DEPTH_MAX, NoMemory};
use mesh_base::{Surface, VertexId};
use std::alloc::Global;

/// Drops the two faces beside an edge, and makes two at the edge of the opposite vertices. Some of it may be done where memory
/// is wanting.
fn apply_flip<S: Surface>(mesh: &mut S, e: &EdgeFaces) -> Result<(), NoMemory>
    requires closed { IsClosed (S.mesh mesh.old) }
    requires tried { MayBeTried (S.mesh mesh.old) e.now }
    ensures made { OnOk result (S.mesh mesh.new ≡ flip_mesh (S.mesh mesh.old) e.now) }
    ensures marks { BeginsWith (S.kept mesh.new) (S.kept mesh.old) }
{
    mesh.drop_face(e.left_face)?;
    mesh.drop_face(e.right_face)?;
    make_faces(mesh, &[[e.a, e.d, e.c], [e.b, e.c, e.d]])
}

/// Makes the changes of a flip, or leaves all as it was where memory is wanting.
fn apply_or_roll_back<S: Surface>(mesh: &mut S, e: &EdgeFaces) -> Result<(), NoMemory>
    requires closed { IsClosed (S.mesh mesh.old) }
    requires tried { MayBeTried (S.mesh mesh.old) e.now }
    ensures made { OnOk result (S.mesh mesh.new ≡ flip_mesh (S.mesh mesh.old) e.now) }
    ensures left { OnErr result (S.mesh mesh.new ≡ S.mesh mesh.old) }
    ensures marks { BeginsWith (S.kept mesh.new) (S.kept mesh.old) }
    ensures kept { OnErr result (S.kept mesh.new ≡ S.kept mesh.old) }
{
    let mark = mesh.mark()?;
    let done = apply_flip(mesh, e);
    if done.is_err() {
        mesh.back_to(mark);
    }
    done
}

/// Flips an edge whose flip may be tried, or leaves all as it was.
fn flip_or_leave<S: Surface>(
    alloc: Global,
    mesh: &mut S,
    e: &EdgeFaces,
    depth: u8,
) -> Result<Edit, NoMemory>
    requires closed { IsClosed (S.mesh mesh.old) }
    requires clear { IsClearMesh (S.mesh mesh.old) }
    requires depth { depth ≤ DEPTH_MAX }
    requires tried { MayBeTried (S.mesh mesh.old) e.now }
    ensures answer { OnOkIs result
        (flip_answer meets_exactly (S.mesh mesh.old) e.now.a e.now.b depth) }
    ensures mesh { S.mesh mesh.new ≡ mesh_after_call flip_result (S.mesh mesh.old) result }
    ensures marks { BeginsWith (S.kept mesh.new) (S.kept mesh.old) }
    ensures kept { KeepsOnNo result (S.kept mesh.new) (S.kept mesh.old) }
{
    match first_hit(alloc, mesh, e, depth)? {
        Some(p) => Ok(Edit::No(Why::Hit(p))),
        None => {
            apply_or_roll_back(mesh, e)?;
            Ok(Edit::Done(Change::Flip { a: e.a, b: e.b }))
        }
    }
}

/// Flips the edge of two ids, in any order: the two faces beside it are dropped, and two are made at the edge of their
/// opposite vertices. With `a` the smaller end, `b` the larger, `c` the opposite vertex of the face that runs from `a` to `b`
/// and `d` that of the other, they are `a d c` and `b c d`, under the next face ids.
///
/// The answer is exact. It is Done with the edge, smaller end first; or No with the first reason that holds: the ids are no
/// edge, the edge is crowded, the edge of `c` and `d` is there already or has one end, the test or the result would pass a
/// limit, or, of all pairs of the test in order, the first that does not pass, to the depth. The test is the split of the
/// edge, with the new vertex going from the middle of `a` and `b` to the middle of `c` and `d`. It is taken back, next ids
/// included. After No, and where memory is wanting, the mesh is as it was, next ids included, and so is what was kept.
///
/// A flip keeps the mesh closed and clear, and no pair meets at any fraction of that motion. After the edge flip of El Topo
/// (Brochu and Bridson 2009).
pub fn flip<S: Surface>(
    alloc: Global,
    mesh: &mut S,
    a: VertexId,
    b: VertexId,
    depth: u8,
) -> Result<Edit, NoMemory>
    requires closed { IsClosed (S.mesh mesh.old) }
    requires clear { IsClearMesh (S.mesh mesh.old) }
    requires depth { depth ≤ DEPTH_MAX }
    ensures answer { OnOkIs result (flip_answer meets_exactly (S.mesh mesh.old) a b depth) }
    ensures mesh { S.mesh mesh.new ≡ mesh_after_call flip_result (S.mesh mesh.old) result }
    // The mesh stays closed and clear.
    ensures closed { IsClosed (S.mesh mesh.new) }
    ensures clear { IsClearMesh (S.mesh mesh.new) }
    // From the edge to the middle of the two opposite vertices nothing meets.
    ensures motion { IfOk result (λ edit. MovesClearOnDone flip_tested_on (S.mesh mesh.old) edit) }
    ensures marks { BeginsWith (S.kept mesh.new) (S.kept mesh.old) }
    ensures kept { KeepsOnNo result (S.kept mesh.new) (S.kept mesh.old) }
{
    match edge_to_flip(mesh, a, b) {
        Ok(e) => flip_or_leave(alloc, mesh, &e, depth),
        Err(why) => Ok(Edit::No(why)),
    }
}
