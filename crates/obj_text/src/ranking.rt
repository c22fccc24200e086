//! Vertices by their ranks among the live ones.
ghost use Rattle.std.specs.Prelude.{◌≡◌, ◌≤◌, nat_le, map, IsTrue, IfOk, length};
ghost use Rattle.std.specs.List.Sorted.{IsNonDecreasing};
ghost use Rattle.std.specs.FinMap as finite;
ghost use Rattle.grid_base.specs.declared.TheConstants.{VERTICES_MAX};
ghost use Rattle.obj_text.specs.Written.{rank_among, points_in_order, faces_by_rank};

use grid_base::NoMemory;
use mesh_base::{
    FaceId, MeshLists, Points, Surface, Triangles, VertexId, live_faces, live_vertices,
};
use std::alloc::Global;

// Whether so many of the rising ids are up to `v`, and no more.
fn are_so_many(ids: &[VertexId], v: VertexId, count: usize) -> bool
    requires rising { IsNonDecreasing ids.now }
    ensures { IsTrue result → rank_among ids.now v ≡ count }
{
    if count == 0 || count > ids.len() {
        return false;
    }
    let last = ids[count - 1];
    if last.0 > v.0 {
        return false;
    }
    if count == ids.len() {
        return true;
    }
    let next = ids[count];
    v.0 < next.0
}

// How many of the rising ids there are up to `v`: where they are 1, 2 and so on, `v` itself.
pub(crate) fn rank(ids: &[VertexId], v: VertexId) -> u64
    requires rising { IsNonDecreasing ids.now }
    ensures { result ≡ rank_among ids.now v }
{
    let last = v.0;
    if are_so_many(ids, v, last as usize) {
        return u64::from(last);
    }
    ids.partition_point(
        |u: &VertexId| -> bool
            ensures { result ≡ nat_le u.now last }
        { u.0 <= last },
    ) as u64
}

/// The rank of a vertex among the rising ids, from 1: how many of them there are up to its own.
pub fn rank_of(ids: &[VertexId], v: VertexId) -> u32
    requires rising { IsNonDecreasing ids.now }
    requires few { length ids.now ≤ VERTICES_MAX }
    ensures { result ≡ rank_among ids.now v }
{
    rank(ids, v) as u32
}

// Where the vertices of these ids stand.
fn points_of<S: Surface>(alloc: Global, mesh: &S, ids: &[VertexId]) -> Result<Points, NoMemory>
    requires live { ids.now ≡ finite.keys (S.mesh mesh.now).points }
    ensures { IfOk result (λ points. points ≡ points_in_order (S.mesh mesh.now)) }
{
    let mut points = Points::new(alloc);
    for v in ids {
        let p = mesh.point(*v).unwrap();
        points.push(p)?;
    }
    Ok(points)
}

// The ranks of three corners among the rising ids.
fn ranks_of(ids: &[VertexId], corners: [VertexId; 3]) -> [u32; 3]
    requires rising { IsNonDecreasing ids.now }
    requires few { length ids.now ≤ VERTICES_MAX }
    ensures { result ≡ map (rank_among ids.now) corners }
{
    let [a, b, c] = corners;
    [rank_of(ids, a), rank_of(ids, b), rank_of(ids, c)]
}

// The faces of these ids, by the ranks of their corners.
fn ranked_faces<S: Surface>(
    alloc: Global,
    mesh: &S,
    ids: &[VertexId],
    faces: &[FaceId],
) -> Result<Triangles, NoMemory>
    requires live { ids.now ≡ finite.keys (S.mesh mesh.now).points }
    requires live_faces { faces.now ≡ finite.keys (S.mesh mesh.now).faces }
    ensures { IfOk result (λ faces. faces ≡ faces_by_rank (S.mesh mesh.now)) }
{
    let mut ranked = Triangles::new(alloc);
    for f in faces {
        let corners = mesh.corners(*f).unwrap();
        ranked.push(ranks_of(ids, corners))?;
    }
    Ok(ranked)
}

/// Where the live vertices of a mesh stand, by rising id, and its live faces by rising id, each by the ranks of its corners from 1
/// among the live vertices: the lists that are read from its text. Refuses only where there is no memory.
pub fn lists_by_rank<S: Surface>(alloc: Global, mesh: &S) -> Result<MeshLists, NoMemory>
    ensures points { IfOk result (λ lists. lists.points ≡ points_in_order (S.mesh mesh.now)) }
    ensures faces { IfOk result (λ lists. lists.faces ≡ faces_by_rank (S.mesh mesh.now)) }
{
    let ids = live_vertices(alloc, mesh)?;
    let faces = live_faces(alloc, mesh)?;
    let points = points_of(alloc, mesh, ids.as_slice())?;
    let faces = ranked_faces(alloc, mesh, ids.as_slice(), faces.as_slice())?;
    Ok(MeshLists { points, faces })
}
