//! The ids that vertices and faces take, by their ranks.
ghost use Rattle.std.specs.Prelude.{◌≡◌, ◌≤◌, ◌-◌, get_or, length, nat_le};
ghost use Rattle.std.specs.List.Sorted.{IsNonDecreasing};
ghost use Rattle.grid_base.specs.declared.TheConstants.{VERTICES_MAX};
ghost use Rattle.obj_text.specs.Written.{rank_among};
ghost use Rattle.mesh_ids.specs.NewIds.{new_id};

use mesh_base::{FaceId, VertexId};
use obj_text::rank_of;

// The id that has a rank, from 1.
fn at_rank(ids: &[u32], rank: usize) -> u32
    ensures { result ≡ get_or ids.now (rank - 1) 0 }
{
    match ids.get(rank.saturating_sub(1)) {
        Some(id) => *id,
        None => 0,
    }
}

/// The id that a vertex takes, by the ids of all.
pub(crate) fn vertex_id(old: &[VertexId], ids: &[u32], v: VertexId) -> VertexId
    requires rising { IsNonDecreasing old.now }
    requires few { length old.now ≤ VERTICES_MAX }
    ensures { result ≡ new_id old.now ids.now v }
{
    VertexId(at_rank(ids, rank_of(old, v) as usize))
}

// How many of the rising ids there are up to `f`.
fn face_rank(old: &[FaceId], f: FaceId) -> usize
    requires { IsNonDecreasing old.now }
    ensures { result ≡ rank_among old.now f }
{
    let last = f.0;
    old.partition_point(
        |u: &FaceId| -> bool
            ensures { result ≡ nat_le u.now last }
        { u.0 <= last },
    )
}

/// The id that a face takes, by the ids of all.
pub(crate) fn face_id(old: &[FaceId], ids: &[u32], f: FaceId) -> FaceId
    requires { IsNonDecreasing old.now }
    ensures { result ≡ new_id old.now ids.now f }
{
    FaceId(at_rank(ids, face_rank(old, f)))
}
