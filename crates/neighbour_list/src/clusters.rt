//! Clusters: the vertices of some faces that stand near one another, with their reference points.
ghost use Rattle.std.specs.Prelude.{◌≡◌, ◌⊎◌, ◌++◌, ◌∷◌, [], ℕ, IsTrue, IsOk, IfOk};
ghost use Rattle.std.specs.List.{All};
ghost use Rattle.mesh_base.specs.declared.Corners.{Corners};
ghost use Rattle.mesh_base.specs.Placements.{Placement};
ghost use Rattle.neighbour_list.specs.Clusters.{HasVertex, HasFace, IsCovered, AreAt};

use crate::order::{OnCurve, corners_along_curve};
use crate::reference::Reference;
use grid_base::{Items, NoMemory};
use mesh_base::{Corners, VertexId};
use pair_paths::{MovingFace, Paths, Position};
use std::alloc::Global;
use std::mem;

// Whether the vertex is in the cluster.
fn has_vertex(refs: &[Reference], v: VertexId) -> bool
    ensures { IsTrue result → HasVertex refs.now v }
{
    for k in refs {
        if k.v == v {
            return true;
        }
    }
    false
}

// Puts a vertex into the cluster, where it starts, unless it is there.
fn put_vertex<P: Paths>(refs: &mut Items<Reference>, v: VertexId, paths: &P) -> Result<(), NoMemory>
    ensures has { IsOk result → HasVertex refs.new v }
    ensures kept { (u : ℕ) → HasVertex refs.old u → HasVertex refs.new u }
    ensures at { AreAt (P.motion paths.now).start refs.old → AreAt (P.motion paths.now).start refs.new }
{
    if has_vertex(refs.as_slice(), v) {
        return Ok(());
    }
    refs.push(Reference {
        v,
        at: paths.path_of(v).start,
    })
}

// Puts the corners of a face into the cluster.
fn put_face<P: Paths>(refs: &mut Items<Reference>, c: &Corners, paths: &P) -> Result<(), NoMemory>
    ensures has { IsOk result → HasFace refs.new c.now }
    ensures kept { (u : ℕ) → HasVertex refs.old u → HasVertex refs.new u }
    ensures at { AreAt (P.motion paths.now).start refs.old → AreAt (P.motion paths.now).start refs.new }
{
    put_vertex(refs, c.first, paths)?;
    put_vertex(refs, c.second, paths)?;
    put_vertex(refs, c.third, paths)
}

/// The clusters that are full, and the last one, which grows.
#[derive(Drop)]
struct ClusterBuilder {
    full: Items<Items<Reference>>,
    last: Items<Reference>,
}

// Puts the last cluster at the end of the full ones, and begins another.
fn close_last(alloc: Global, all: &mut ClusterBuilder) -> Result<(), NoMemory>
    ensures full { IsOk result → all.new.full ≡ all.old.full ++ all.old.last ∷ [] }
    ensures last { IsOk result → all.new.last ≡ [] }
{
    let done = mem::replace(&mut all.last, Items::new(alloc));
    all.full.push(done)
}

// The longest of the distances along the axes.
fn far_from(a: Position, b: Position) -> u128 {
    let d = a.seen_from(b);
    d.x.unsigned_abs()
        .max(d.y.unsigned_abs())
        .max(d.z.unsigned_abs())
}

// Whether a face stands far from the first vertex of a cluster: more than five times its own longest side. The curve jumps,
// and a cluster on both sides of a jump would drift alike with nothing.
fn is_far<P: Paths>(refs: &[Reference], c: &Corners, paths: &P) -> bool {
    let Some(first) = refs.first() else {
        return false;
    };
    let a = paths.path_of(c.first).start;
    let b = paths.path_of(c.second).start;
    let d = paths.path_of(c.third).start;
    let side = far_from(a, b).max(far_from(b, d)).max(far_from(d, a));
    far_from(first.at, a) / 5 > side
}

// Begins another cluster, where the last is full.
fn make_room(alloc: Global, all: &mut ClusterBuilder, is_full: bool) -> Result<(), NoMemory>
    ensures kept { IsOk result → (d : Corners) →
        (IsCovered all.old.full d ⊎ HasFace all.old.last d) →
        (IsCovered all.new.full d ⊎ HasFace all.new.last d) }
    ensures full_at { IsOk result → (at : Placement) →
        All (AreAt at) all.old.full → AreAt at all.old.last → All (AreAt at) all.new.full }
    ensures last_at { IsOk result → (at : Placement) →
        AreAt at all.old.last → AreAt at all.new.last }
{
    if is_full {
        return close_last(alloc, all);
    }
    Ok(())
}

// Puts a face into the last cluster, or into another, where that has so many vertices or stands far away.
fn put_into<P: Paths>(
    alloc: Global,
    all: &mut ClusterBuilder,
    c: &Corners,
    size: usize,
    paths: &P,
) -> Result<(), NoMemory>
    ensures has { IsOk result → HasFace all.new.last c.now }
    ensures kept { IsOk result → (d : Corners) →
        (IsCovered all.old.full d ⊎ HasFace all.old.last d) →
        (IsCovered all.new.full d ⊎ HasFace all.new.last d) }
    ensures full_at { IsOk result →
        All (AreAt (P.motion paths.now).start) all.old.full → AreAt (P.motion paths.now).start all.old.last →
        All (AreAt (P.motion paths.now).start) all.new.full }
    ensures last_at { IsOk result →
        AreAt (P.motion paths.now).start all.old.last → AreAt (P.motion paths.now).start all.new.last }
{
    let is_full = all.last.len() >= size || is_far(all.last.as_slice(), c, paths);
    make_room(alloc, all, is_full)?;
    put_face(&mut all.last, c, paths)
}

// Clusters of about so many vertices each: the corners of each of these faces are in one of them, and their reference points
// are where they start.
fn clusters_along<P: Paths>(
    alloc: Global,
    placed: &[OnCurve],
    size: usize,
    paths: &P,
) -> Result<Items<Items<Reference>>, NoMemory>
    ensures covered { IfOk result (λ clusters. All (λ k. IsCovered clusters k.corners) placed.now) }
    ensures at { IfOk result (λ clusters. All (AreAt (P.motion paths.now).start) clusters) }
{
    let mut all = ClusterBuilder {
        full: Items::new(alloc),
        last: Items::new(alloc),
    };
    for k in placed {
        put_into(alloc, &mut all, &k.corners, size, paths)?;
    }
    close_last(alloc, &mut all)?;
    let ClusterBuilder { full, last: _last } = all;
    Ok(full)
}

/// Clusters of about so many vertices each, of faces that mostly stand near one another where they start: the corners of each
/// of these faces are in one of them, and their reference points are where they start.
pub(crate) fn clusters_of<P: Paths>(
    alloc: Global,
    faces: &[MovingFace],
    size: usize,
    paths: &P,
) -> Result<Items<Items<Reference>>, NoMemory>
    ensures covered { IfOk result (λ clusters. All (λ f. IsCovered clusters f.corners) faces.now) }
    ensures at { IfOk result (λ clusters. All (AreAt (P.motion paths.now).start) clusters) }
{
    let placed = corners_along_curve(alloc, faces)?;
    let clusters = clusters_along(alloc, &placed, size, paths)?;
    Ok(clusters)
}
