//! The changes of a pinch.
ghost use Rattle.std.specs.Prelude.{◌≡◌, ◌||◌, length, map, sum, nat_lt, OnOk};
ghost use Rattle.std.specs.List.{fold};
ghost use Rattle.mesh_base.specs.Mesh.{IsLiveVertex};
ghost use Rattle.mesh_base.specs.Changes.{with_point};
ghost use Rattle.mesh_base.specs.Kept.{BeginsWith};
ghost use Rattle.edit_base.specs.Edges.{renamed, with_renamed};
ghost use Rattle.edit_pinch.specs.Pinch.{fans, with_copy};
ghost use Rattle.edit_pinch.specs.InTurn.{MayBeRemade, MayBeCopied, CopiedInTurn, fan_ends, IsCopied};
ghost use Rattle.edit_pinch.specs.Tried.{TellsOver};

use crate::vertex_fans::Fan;
use edit_acts::{corners_at, make_face, make_vertex, renamed};
use edit_base::CopyAt;
use grid_base::{ID_MAX, NoMemory, Point};
use mesh_base::{FaceId, Surface, VertexId};

/// Whether the fans have more faces than so many.
fn have_more(fans: &[Fan], room: usize) -> bool
    ensures { result ≡ nat_lt room (sum (map length fans.now)) }
{
    let mut left = room;
    for fan in fans {
        if fan.len() > left {
            return true;
        }
        left -= fan.len();
    }
    false
}

/// Whether so many vertices are more than there is room or ids for, or there are more faces than ids for them.
fn is_too_much(count: usize, vertices: usize, vertex_ids: usize, more_faces: bool) -> bool
    ensures { result ≡ (nat_lt vertices count || nat_lt vertex_ids count || more_faces) }
{
    count > vertices || count > vertex_ids || more_faces
}

/// Whether a pinch would pass a limit, with these fans after its first: it takes a vertex and a vertex id for each, and a
/// face id for each of their faces, and has as many faces as before.
pub(crate) fn is_over<S: Surface>(mesh: &S, others: &[Fan]) -> bool
    ensures { TellsOver (S.mesh mesh.now) others.now result }
{
    is_too_much(
        others.len(),
        (mesh.limits().vertices - mesh.vertices()) as usize,
        (ID_MAX + 1 - mesh.next_vertex()) as usize,
        have_more(others, (ID_MAX + 1 - mesh.next_face()) as usize),
    )
}

/// Drops a face, and makes it again with `w` in the place of `v`. Where memory is wanting, it may be dropped.
fn remake<S: Surface>(mesh: &mut S, v: VertexId, w: VertexId, f: FaceId) -> Result<(), NoMemory>
    requires { MayBeRemade v w (S.mesh mesh.old) f }
    ensures made { OnOk result (S.mesh mesh.new ≡ with_renamed v w (S.mesh mesh.old) f) }
    ensures marks { BeginsWith (S.kept mesh.new) (S.kept mesh.old) }
{
    let c = renamed(corners_at(mesh, f), v, w);
    mesh.drop_face(f)?;
    make_face(mesh, c.list())
}

/// Makes a copy of `v` at a point, and the faces of its fan again with the copy in the place of `v`. Where memory is
/// wanting, some of it may be done.
fn put_copy<S: Surface>(
    mesh: &mut S,
    v: VertexId,
    fan: &[FaceId],
    at: Point,
) -> Result<(), NoMemory>
    requires { MayBeCopied v (S.mesh mesh.old) fan.now at }
    ensures made { OnOk result (S.mesh mesh.new ≡ with_copy v (S.mesh mesh.old) (fan.now, at)) }
    ensures marks { BeginsWith (S.kept mesh.new) (S.kept mesh.old) }
{
    let w = make_vertex(mesh, at)?;
    for f in fan {
        remake(mesh, v, w, *f)?;
    }
    Ok(())
}

/// Makes the copies for fans, in order. Where memory is wanting, some of it may be done.
fn put_copies<S: Surface>(
    mesh: &mut S,
    v: VertexId,
    fans: &[Fan],
    copies: &[CopyAt],
) -> Result<(), NoMemory>
    requires same { length fans.now ≡ length copies.now }
    requires turns { CopiedInTurn v (S.mesh mesh.old) (fan_ends fans.now copies.now) }
    ensures made { let ends = fan_ends fans.now copies.now in
        OnOk result (S.mesh mesh.new ≡ fold (with_copy v) (S.mesh mesh.old) ends) }
    ensures marks { BeginsWith (S.kept mesh.new) (S.kept mesh.old) }
{
    for i in 0..fans.len() {
        put_copy(mesh, v, fans[i].as_slice(), copies[i].at)?;
    }
    Ok(())
}

/// Puts a vertex at the point of its first fan, and makes the copies for the others. Where memory is wanting, some of it
/// may be done.
pub fn apply_pinch<S: Surface>(
    mesh: &mut S,
    v: VertexId,
    at: Point,
    fans: &[Fan],
    copies: &[CopyAt],
) -> Result<(), NoMemory>
    requires live { IsLiveVertex (S.mesh mesh.old) v }
    requires same { length fans.now ≡ length copies.now }
    requires turns { CopiedInTurn v (with_point (S.mesh mesh.old) v at) (fan_ends fans.now copies.now) }
    ensures made { OnOk result (IsCopied S.mesh mesh v at (fan_ends fans.now copies.now)) }
    ensures marks { BeginsWith (S.kept mesh.new) (S.kept mesh.old) }
{
    mesh.place(v, at)?;
    put_copies(mesh, v, fans, copies)
}
