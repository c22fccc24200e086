//! The zip itself.
ghost use Rattle.std.specs.Prelude.{◌≡◌};
ghost use Rattle.grid_decided.specs.Decided.{meets_exactly};
ghost use Rattle.mesh_base.specs.Sides.{IsClosed};
ghost use Rattle.mesh_base.specs.Placements.{IsClearMesh};
ghost use Rattle.mesh_base.specs.Kept.{BeginsWith};
ghost use Rattle.edit_zip.specs.Answer.{zip_answer};
ghost use Rattle.edit_base.specs.Clauses.{mesh_after_call, KeepsOnNo, OnOkIs};
ghost use Rattle.edit_zip.specs.Done.{zip_result};
ghost use Rattle.edit_zip.specs.Ready.{MayBeTried};

use crate::attempts::{Attempt, try_turns};
use crate::edges::edges_to_zip;
use edit_base::{Change, EdgeFaces, Edit};
use grid_base::NoMemory;
use mesh_base::{Surface, VertexId};
use std::alloc::Global;

/// Zips two edges whose zip may be tried, or leaves all as it was.
fn zip_or_leave<S: Surface>(
    alloc: Global,
    mesh: &mut S,
    s: &EdgeFaces,
    t: &EdgeFaces,
) -> Result<Edit, NoMemory>
    requires closed { IsClosed (S.mesh mesh.old) }
    requires clear { IsClearMesh (S.mesh mesh.old) }
    requires tried { MayBeTried (S.mesh mesh.old) s.now t.now }
    ensures answer { OnOkIs result
        (zip_answer meets_exactly (S.mesh mesh.old) s.now.a s.now.b t.now.a t.now.b) }
    ensures mesh { S.mesh mesh.new ≡ mesh_after_call zip_result (S.mesh mesh.old) result }
    ensures marks { BeginsWith (S.kept mesh.new) (S.kept mesh.old) }
    ensures kept { KeepsOnNo result (S.kept mesh.new) (S.kept mesh.old) }
{
    match try_turns(alloc, mesh, s, t)? {
        Attempt::Taken(turn) => Ok(Edit::Done(Change::Zip {
            a: s.a,
            b: s.b,
            e: t.a,
            f: t.b,
            turn,
        })),
        Attempt::Failed(why) => Ok(Edit::No(why)),
    }
}

/// Zips the edges of two pairs of ids, each in any order: the four faces beside them are dropped, and the two openings are
/// joined by a tunnel of eight faces, in one of four turns.
///
/// The answer is exact. It is Done with the two edges, smaller ends first, and the turn; or No with the first reason that
/// holds: either is no edge, either is crowded, the eight ids with the opposite vertices are not all different, the result would
/// pass a limit, or, of the last turn tried, that it doubles a face, or the first pair that meets. The turns are tried in
/// the order of the sums of the squared lengths that they join, and then of their numbers; the first that doubles no face
/// and whose result is clear is taken. After No, and where memory is wanting, the mesh is as it was, next ids
/// included, and so is what was kept.
///
/// A zip keeps the mesh closed and clear, and moves nothing. After the merging by zippering of El Topo (Brochu and Bridson
/// 2009).
pub fn zip<S: Surface>(
    alloc: Global,
    mesh: &mut S,
    a: VertexId,
    b: VertexId,
    e: VertexId,
    f: VertexId,
) -> Result<Edit, NoMemory>
    requires closed { IsClosed (S.mesh mesh.old) }
    requires clear { IsClearMesh (S.mesh mesh.old) }
    ensures answer { OnOkIs result (zip_answer meets_exactly (S.mesh mesh.old) a b e f) }
    ensures mesh { S.mesh mesh.new ≡ mesh_after_call zip_result (S.mesh mesh.old) result }
    // The mesh stays closed and clear.
    ensures closed { IsClosed (S.mesh mesh.new) }
    ensures clear { IsClearMesh (S.mesh mesh.new) }
    ensures marks { BeginsWith (S.kept mesh.new) (S.kept mesh.old) }
    ensures kept { KeepsOnNo result (S.kept mesh.new) (S.kept mesh.old) }
{
    match edges_to_zip(mesh, a, b, e, f) {
        Ok(p) => zip_or_leave(alloc, mesh, &p.s, &p.t),
        Err(why) => Ok(Edit::No(why)),
    }
}
