//! Whether faces of a list can be equal or opposite, told by a number that corners keep when they change places.
ghost use Rattle.std.specs.Prelude.{◌≡◌, ◌<◌, ◌*◌, ◌^◌, false, true, IfOk};
ghost use Rattle.edit_collapse.specs.Alike.{AreUnlike, IsMetAnew, corner_rank, is_folded, met_none};

use grid_base::NoMemory;
use mesh_base::{Corners, FaceId, VertexId};
use std::alloc::Global;
use std::collections::BTreeSet;

/// Whether two of the corners are one.
fn is_folded(c: &Corners) -> bool
    ensures { result ≡ is_folded c.now }
{
    c.first == c.second || c.second == c.third || c.third == c.first
}

/// An id as a number of 128 bits.
fn number(v: VertexId) -> u128
    ensures value { result ≡ v }
    ensures small { result < 2 ^ 32 }
{
    u128::from(v.0)
}

/// The product of two ids.
fn product(u: VertexId, v: VertexId) -> u128
    ensures value { result ≡ u * v }
    ensures small { result < 2 ^ 64 }
{
    u128::from(u.0) * u128::from(v.0)
}

/// A number that corners keep when they change places. Two faces that share a corner have one number where they share all.
fn rank(c: &Corners) -> u128
    ensures { result ≡ corner_rank c.now }
{
    let sum = number(c.first) + number(c.second) + number(c.third);
    let products = product(c.first, c.second)
        + product(c.second, c.third)
        + product(c.third, c.first);
    sum * (1 << 66) + products
}

/// Whether the corners are three, and none of their number were met. They are met then.
fn is_met_anew(met: &mut BTreeSet<u128>, c: &Corners) -> Result<bool, NoMemory>
    ensures { IfOk result (λ anew. anew ≡ true → IsMetAnew met.old met.new c.now) }
{
    if is_folded(c) {
        return Ok(false);
    }
    let anew = met.insert(rank(c))?;
    Ok(anew)
}

/// Among so few faces it takes less time to compare each two. Only speed depends on it.
const FEW: usize = 24;

/// Whether two of the faces may be equal or opposite, or one opposite to itself: false tells that none are.
pub(crate) fn may_be_alike(alloc: Global, faces: &[(FaceId, Corners)]) -> Result<bool, NoMemory>
    ensures { IfOk result (λ may. may ≡ false → AreUnlike met_none faces.now) }
{
    if faces.len() <= FEW {
        return Ok(true);
    }
    let mut met = BTreeSet::new(alloc);
    for e in faces {
        let anew = is_met_anew(&mut met, &e.1)?;
        if !anew {
            return Ok(true);
        }
    }
    Ok(false)
}
