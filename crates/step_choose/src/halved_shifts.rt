ghost use Rattle.std.specs.Prelude.{◌≡◌, ◌≤◌, IsTrue, IfOk};
ghost use Rattle.std.specs.Option.{option_map};
ghost use Rattle.grid_base.specs.declared.TheConstants.{DEPTH_MAX, HALVINGS_MAX};
ghost use Rattle.grid_decided.specs.Decided.{meets_exactly};
ghost use Rattle.mesh_base.specs.Placements.{IsClearMesh};
ghost use Rattle.mesh_base.specs.Shifts.{NameLive, end_in_box};
ghost use Rattle.step_choose.specs.Choice.{halved_times, all_at_rest, halved_way};
ghost use Rattle.step_choose.specs.StepWay.{way_by};
ghost use Rattle.step_lists.specs.Compared.{IsOfMesh};

use crate::settings::Settings;
use crate::way::StepWay;
use grid_base::{NO_SHIFT, NoMemory, halved};
use mesh_base::{How, ShiftOf, Shifts, Surface};
use std::alloc::Global;
use step_lists::ListOfMesh;
use step_zones::Blocks;

// Each shift halved so many times.
fn halved_times(alloc: Global, asked: &[ShiftOf], times: u8) -> Result<Shifts, NoMemory>
    requires { times ≤ HALVINGS_MAX }
    ensures { IfOk result (λ shifts. shifts ≡ halved_times times asked.now) }
{
    let mut shifts = Shifts::new(alloc);
    for s in asked {
        shifts.push(ShiftOf {
            v: s.v,
            by: halved(s.by, times),
        })?;
    }
    Ok(shifts)
}

/// No shift for each of the vertices.
pub(crate) fn all_at_rest(alloc: Global, asked: &[ShiftOf]) -> Result<Shifts, NoMemory>
    ensures { IfOk result (λ shifts. shifts ≡ all_at_rest asked.now) }
{
    let mut shifts = Shifts::new(alloc);
    for s in asked {
        shifts.push(ShiftOf {
            v: s.v,
            by: NO_SHIFT,
        })?;
    }
    Ok(shifts)
}

/// The fewest halvings of the asked shifts with which all pairs pass.
pub(crate) fn by_halving<S: Surface>(
    alloc: Global,
    mesh: &S,
    near: &ListOfMesh<'_>,
    asked: &Shifts,
    set: Settings,
) -> Result<Option<StepWay>, NoMemory>
    requires named { NameLive (S.mesh mesh.now) asked.now }
    requires in_box { IsTrue (end_in_box (S.mesh mesh.now) asked.now) }
    requires clear { IsClearMesh (S.mesh mesh.now) }
    requires of_mesh { IsOfMesh (S.mesh mesh.now) near.now }
    requires depth { set.depth ≤ DEPTH_MAX }
    requires halvings { set.halvings ≤ HALVINGS_MAX }
    ensures { IfOk result
        (λ found. option_map way_by found ≡ halved_way meets_exactly
        (S.mesh mesh.now) asked.now set.depth set.halvings) }
{
    for k in 0..set.halvings {
        let times = k + 1;
        let taken = halved_times(alloc, asked.as_slice(), times)?;
        let pass = near.all_pass(alloc, mesh, &taken, set.depth)?;
        if pass {
            return Ok(Some(StepWay {
                how: How::Halved { times },
                taken,
                blocks: Blocks::new(alloc),
            }));
        }
    }
    Ok(None)
}
