//! The pairs that need an entry, found near what is touched.
ghost use Rattle.std.specs.Prelude.{◌≡◌, IfOk, OnOk};
ghost use Rattle.edit_base.specs.Scaffold.{motion_by};
ghost use Rattle.motion_proof.specs.Needs.{needing};
ghost use Rattle.edit_check.specs.Reach.{faces_in_reach};
ghost use Rattle.edit_check.specs.Untouched.{IsClearWhereUntouched};

use crate::faces::faces_along;
use edit_check::reach_of;
use grid_base::{Extent, NoMemory, Wide};
use mesh_base::{FaceId, Surface, sides_in_order};
use motion_proof::{Names, Way, needing_along};
use pair_paths::{Frame, Position};
use pair_scan::MovedVertices;
use std::alloc::Global;

/// Sets `into` to the faces near the box, by rising id; to none, where there is no box.
fn find_near<S: Surface>(
    mesh: &S,
    reach: Option<Extent>,
    into: &mut Vec<FaceId>,
) -> Result<(), NoMemory>
    ensures { OnOk result (into.new.items ≡ faces_in_reach (S.mesh mesh.now) reach) }
{
    match reach {
        Some(at) => mesh.faces_near(at, into),
        None => {
            into.clear();
            Ok(())
        }
    }
}

/// The frame that stays where it is.
fn resting_frame() -> Frame {
    Frame {
        end: Position::of(Wide { x: 0, y: 0, z: 0 }),
    }
}

/// The names of the pairs of a mesh that need an entry, in order. Faces from the id `fresh_from` on are new. An edge
/// and a face, both old, of which no vertex moves, need none where they do not meet; and where one of the two is far
/// from all that is touched, an axis keeps it and what is touched apart. So the sides of the faces near that are looked
/// at with these faces, and no others.
pub(crate) fn needing_near<S: Surface>(
    alloc: Global,
    going: &MovedVertices<S, &[Way]>,
    fresh_from: u32,
) -> Result<Names, NoMemory>
    requires { IsClearWhereUntouched (S.mesh going.now.mesh.now) going.now.moves.now fresh_from }
    ensures { let m = S.mesh going.now.mesh.now in
        IfOk result (λ names. names ≡ needing m (motion_by m going.now.moves.now)) }
{
    let reach = reach_of(alloc, going, &[], fresh_from)?;
    let mut near = Vec::new(alloc);
    find_near(going.mesh, reach, &mut near)?;
    let faces = faces_along(alloc, going, near.as_slice())?;
    let sides = sides_in_order(alloc, going.mesh, near.as_slice())?;
    needing_along(
        alloc,
        going,
        sides.as_slice(),
        faces.as_slice(),
        resting_frame(),
    )
}
