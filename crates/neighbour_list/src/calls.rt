//! The pairs that do not pass, by a list where it serves.
ghost use Rattle.std.specs.Prelude.{◌≤◌, IsTrue, IfOk};
ghost use Rattle.grid_base.specs.declared.TheConstants.{DEPTH_MAX};
ghost use Rattle.mesh_base.specs.Placements.{IsClearMesh};
ghost use Rattle.mesh_base.specs.Shifts.{NameLive, end_in_box};
ghost use Rattle.pair_scan.specs.Answers.{AreAllFailing, TellsWhetherAllPass, IsClearIfNone, IsClearIfAllPass};
ghost use Rattle.pair_scan.specs.Failed.{AreFailing};
ghost use Rattle.neighbour_list.specs.Listed.{IsListOf};

use crate::neighbour_list::NeighbourList;
use crate::scan::{all_pass_by_list, failing_by_list};
use grid_base::{DEPTH_MAX, NoMemory};
use mesh_base::{Shifts, Surface};
use pair_scan::{Pairs, all_pass, failing};
use std::alloc::Global;

/// What `pair_scan::failing` answers of a clear mesh, by a list of the mesh where the list serves: all pairs that do not pass
/// where each vertex goes from its point by its shift, in order of the edge and then of the face. Refuses only where there is no
/// memory.
pub fn failing_listed<S: Surface>(
    alloc: Global,
    mesh: &S,
    by: &Shifts,
    depth: u8,
    list: &NeighbourList,
) -> Result<Pairs, NoMemory>
    requires named { NameLive (S.mesh mesh.now) by.now }
    requires in_box { IsTrue (end_in_box (S.mesh mesh.now) by.now) }
    requires depth { depth ≤ DEPTH_MAX }
    requires clear { IsClearMesh (S.mesh mesh.now) }
    requires list { IsListOf (S.mesh mesh.now) list.now }
    ensures failing { IfOk result (AreAllFailing (S.mesh mesh.now) by.now depth) }
    // Each pair that does not pass, and no other, in order.
    ensures all { IfOk result (AreFailing (S.mesh mesh.now) by.now depth) }
    // None fails: no pair meets on the way.
    ensures clear { IfOk result (IsClearIfNone (S.mesh mesh.now) by.now) }
{
    match failing_by_list(alloc, mesh, by, depth, list)? {
        Some(pairs) => Ok(pairs),
        None => failing(alloc, mesh, by, depth),
    }
}

/// What `pair_scan::all_pass` answers of a clear mesh, by a list of the mesh where the list serves: whether all pairs pass
/// where each vertex goes from its point by its shift. Refuses only where there is no memory.
pub fn all_pass_listed<S: Surface>(
    alloc: Global,
    mesh: &S,
    by: &Shifts,
    depth: u8,
    list: &NeighbourList,
) -> Result<bool, NoMemory>
    requires named { NameLive (S.mesh mesh.now) by.now }
    requires in_box { IsTrue (end_in_box (S.mesh mesh.now) by.now) }
    requires depth { depth ≤ DEPTH_MAX }
    requires clear { IsClearMesh (S.mesh mesh.now) }
    requires list { IsListOf (S.mesh mesh.now) list.now }
    ensures exact { IfOk result (TellsWhetherAllPass (S.mesh mesh.now) by.now depth) }
    // All pass: no pair meets on the way.
    ensures clear { IfOk result (IsClearIfAllPass (S.mesh mesh.now) by.now) }
{
    match all_pass_by_list(alloc, mesh, by, depth, list)? {
        Some(pass) => Ok(pass),
        None => all_pass(alloc, mesh, by, depth),
    }
}
