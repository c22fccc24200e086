//! The pairs that do not pass where vertices go by shifts, and whether there is none.
ghost use Rattle.std.specs.Prelude.{◌≤◌, IsTrue, IfOk};
ghost use Rattle.grid_base.specs.declared.TheConstants.{DEPTH_MAX};
ghost use Rattle.mesh_base.specs.Shifts.{NameLive, end_in_box};
ghost use Rattle.pair_scan.specs.Answers.{AreAllFailing, TellsWhetherAllPass, IsClearIfNone, IsClearIfAllPass};
ghost use Rattle.pair_scan.specs.Failed.{AreFailing};

use crate::motions::ShiftedVertices;
use crate::scan::{Pairs, failing_in, has_none};
use grid_base::{DEPTH_MAX, NoMemory};
use mesh_base::{Shifts, Surface};
use std::alloc::Global;

/// All pairs that do not pass where each vertex goes from its point by its shift, in order of the edge and then of the
/// face: those that are not separated to the depth and do not move as one while they are apart. Where there is none, no
/// pair meets at any fraction of the way. The shifts name the live vertices, by rising id, and end in the box. Refuses only
/// where there is no memory. A tree of boxes, each around the start and the end, leaves out the pairs that are far apart
/// (a broad phase, as in El Topo, Brochu and Bridson 2009). The boxes are taken in a frame that goes as most vertices do,
/// and where others go far otherwise in one that goes as they do, so that a body that moves as a whole has small ones.
pub fn failing<S: Surface>(
    alloc: Global,
    mesh: &S,
    by: &Shifts,
    depth: u8,
) -> Result<Pairs, NoMemory>
    requires named { NameLive (S.mesh mesh.now) by.now }
    requires in_box { IsTrue (end_in_box (S.mesh mesh.now) by.now) }
    requires depth { depth ≤ DEPTH_MAX }
    ensures failing { IfOk result (AreAllFailing (S.mesh mesh.now) by.now depth) }
    // Each pair that does not pass, and no other, in order.
    ensures all { IfOk result (AreFailing (S.mesh mesh.now) by.now depth) }
    // None fails: no pair meets on the way.
    ensures clear { IfOk result (IsClearIfNone (S.mesh mesh.now) by.now) }
{
    let shifted = ShiftedVertices {
        mesh,
        by: by.as_slice(),
    };
    let pairs = failing_in(alloc, mesh, &shifted, shifted.by, depth, false)?;
    Ok(pairs)
}

/// Whether all pairs pass where each vertex goes from its point by its shift: whether `failing` tells none. It ends at the
/// first edge with a pair that does not. The shifts name the live vertices, by rising id, and end in the box. Refuses only
/// where there is no memory.
pub fn all_pass<S: Surface>(
    alloc: Global,
    mesh: &S,
    by: &Shifts,
    depth: u8,
) -> Result<bool, NoMemory>
    requires named { NameLive (S.mesh mesh.now) by.now }
    requires in_box { IsTrue (end_in_box (S.mesh mesh.now) by.now) }
    requires depth { depth ≤ DEPTH_MAX }
    ensures exact { IfOk result (TellsWhetherAllPass (S.mesh mesh.now) by.now depth) }
    // All pass: no pair meets on the way.
    ensures clear { IfOk result (IsClearIfAllPass (S.mesh mesh.now) by.now) }
{
    let shifted = ShiftedVertices {
        mesh,
        by: by.as_slice(),
    };
    let found = failing_in(alloc, mesh, &shifted, shifted.by, depth, true)?;
    Ok(has_none(&found))
}
