//! Which faces of a check are touched.
ghost use Rattle.std.specs.Prelude.{◌≡◌, IfOk};
ghost use Rattle.std.specs.List.{list_any};
ghost use Rattle.mesh_base.specs.Sides.{has_corner};
ghost use Rattle.edit_check.specs.Touched.{is_touched};
ghost use Rattle.edit_check.specs.Boxed.{touched_boxed};

use crate::boxed::BoxedFace;
use crate::moves::is_moved;
use edit_base::Move;
use grid_base::{Items, NoMemory};
use mesh_base::{Corners, VertexId};
use pair_paths::MovingFace;
use std::alloc::Global;

/// Whether one of the vertices is a corner.
pub(crate) fn has_a_corner(together: &[VertexId], c: Corners) -> bool
    ensures { result ≡ list_any (λ v. has_corner c v) together.now }
{
    for v in together {
        if c.has_corner(*v) {
            return true;
        }
    }
    false
}

/// Whether the face is new, or a corner of it moves or is one of those that may touch each other.
fn is_touched(moves: &[Move], together: &[VertexId], fresh_from: u32, f: &MovingFace) -> bool
    ensures { result ≡ is_touched moves.now together.now fresh_from f.now }
{
    f.face.0 >= fresh_from
        || is_moved(moves, f.corners.first)
        || is_moved(moves, f.corners.second)
        || is_moved(moves, f.corners.third)
        || has_a_corner(together, f.corners)
}

/// A list for the touched faces begins with room for so many, which is enough for most edits. Only speed depends on it.
const TOUCHED: usize = 16;

/// Those that are touched, in order.
pub(crate) fn touched_of(
    alloc: Global,
    moves: &[Move],
    together: &[VertexId],
    fresh_from: u32,
    faces: &[BoxedFace],
) -> Result<Items<BoxedFace>, NoMemory>
    ensures { IfOk result (λ touched. touched ≡
        touched_boxed moves.now together.now fresh_from faces.now) }
{
    let mut touched = Vec::with_capacity(alloc, TOUCHED)?;
    for f in faces {
        if is_touched(moves, together, fresh_from, &f.face) {
            touched.push(*f)?;
        }
    }
    Ok(Items::from_vec(touched))
}
