//! The pairs that do not pass in the asked step.
ghost use Rattle.std.specs.Prelude.{◌≡◌, ◌≤◌, IsTrue, IfOk};
ghost use Rattle.grid_base.specs.declared.TheConstants.{DEPTH_MAX};
ghost use Rattle.grid_decided.specs.Decided.{meets_exactly};
ghost use Rattle.mesh_base.specs.Failing.{failing};
ghost use Rattle.mesh_base.specs.Placements.{IsClearMesh};
ghost use Rattle.mesh_base.specs.Shifts.{NameLive, end_in_box};

use grid_base::NoMemory;
use mesh_base::{Shifts, Surface};
use pair_scan::{Pairs, failing};
use std::alloc::Global;
use step_near::all_pass_near;

/// The pairs of a clear mesh that do not pass in a step that asks these shifts of its live vertices, in order of the edge and
/// then of the face. Where few vertices are asked to move, it is first seen near them whether there is one; where none is,
/// nothing is looked at. Refuses only where there is no memory.
pub fn asked_hits<S: Surface>(
    alloc: Global,
    mesh: &S,
    asked: &Shifts,
    depth: u8,
) -> Result<Pairs, NoMemory>
    requires named { NameLive (S.mesh mesh.now) asked.now }
    requires in_box { IsTrue (end_in_box (S.mesh mesh.now) asked.now) }
    requires clear { IsClearMesh (S.mesh mesh.now) }
    requires depth { depth ≤ DEPTH_MAX }
    ensures { IfOk result
        (λ hits. hits ≡ failing meets_exactly (S.mesh mesh.now) asked.now depth) }
{
    if all_pass_near(alloc, mesh, asked, depth)? {
        return Ok(Pairs::new(alloc));
    }
    failing(alloc, mesh, asked, depth)
}
