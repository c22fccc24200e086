ghost use Rattle.std.specs.Prelude.{◌≡◌, ◌≤◌, IsTrue, IfOk};
ghost use Rattle.std.specs.Option.{option_map};
ghost use Rattle.grid_base.specs.declared.TheConstants.{DEPTH_MAX};
ghost use Rattle.grid_decided.specs.Decided.{meets_exactly};
ghost use Rattle.mesh_base.specs.Failing.{failing};
ghost use Rattle.mesh_base.specs.Placements.{IsClearMesh};
ghost use Rattle.mesh_base.specs.Shifts.{NameLive, end_in_box};
ghost use Rattle.step_choose.specs.Choice.{impulse_way};
ghost use Rattle.step_choose.specs.StepWay.{way_by};
ghost use Rattle.step_lists.specs.Compared.{IsOfMesh};

use crate::settings::Settings;
use crate::way::StepWay;
use grid_base::{NoMemory, copy_of};
use mesh_base::{How, Shifts, Surface};
use pair_scan::{Pairs, end_in_box};
use std::alloc::Global;
use step_impulse::impulse_pass;
use step_lists::ListOfMesh;
use step_zones::Blocks;

/// The shifts after the fewest impulse passes after which all pairs pass, where no pass up to it takes a vertex out of the
/// box. The first pass is over the failing pairs of the asked shifts, which are handed in.
pub(crate) fn by_impulses<S: Surface>(
    alloc: Global,
    mesh: &S,
    near: &ListOfMesh<'_>,
    asked: &Shifts,
    hits: &Pairs,
    set: Settings,
) -> Result<Option<StepWay>, NoMemory>
    requires named { NameLive (S.mesh mesh.now) asked.now }
    requires clear { IsClearMesh (S.mesh mesh.now) }
    requires of_mesh { IsOfMesh (S.mesh mesh.now) near.now }
    requires hits { hits.now ≡ failing meets_exactly (S.mesh mesh.now) asked.now set.depth }
    requires depth { set.depth ≤ DEPTH_MAX }
    ensures { IfOk result
        (λ found. option_map way_by found ≡ impulse_way meets_exactly
        (S.mesh mesh.now) asked.now set.depth set.passes) }
{
    let mut taken = copy_of(alloc, asked.as_slice())?;
    let mut failed = copy_of(alloc, hits.as_slice())?;
    for k in 0..set.passes {
        impulse_pass(mesh, &failed, &mut taken);
        if !end_in_box(mesh, taken.as_slice()) {
            return Ok(None);
        }
        failed = near.failing(alloc, mesh, &taken, set.depth)?;
        if failed.len() == 0 {
            return Ok(Some(StepWay {
                how: How::Impulse { passes: k + 1 },
                taken,
                blocks: Blocks::new(alloc),
            }));
        }
    }
    Ok(None)
}
