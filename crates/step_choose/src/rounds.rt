ghost use Rattle.std.specs.Prelude.{◌≡◌, ◌≤◌, IfOk};
ghost use Rattle.std.specs.Option.{option_map};
ghost use Rattle.grid_base.specs.declared.TheConstants.{DEPTH_MAX};
ghost use Rattle.grid_decided.specs.Decided.{meets_exactly};
ghost use Rattle.mesh_base.specs.Failing.{failing};
ghost use Rattle.mesh_base.specs.Placements.{IsClearMesh};
ghost use Rattle.mesh_base.specs.Shifts.{NameLive};
ghost use Rattle.step_choose.specs.Choice.{zones_way};
ghost use Rattle.step_choose.specs.StepWay.{way_by};
ghost use Rattle.step_lists.specs.Compared.{IsOfMesh};

use crate::list_source::ListSource;
use crate::settings::Settings;
use crate::way::StepWay;
use grid_base::NoMemory;
use mesh_base::{How, Shifts, Surface};
use pair_scan::Pairs;
use std::alloc::Global;
use step_lists::ListOfMesh;
use step_zones::zones_told;

/// The first round of impact zones in which all pairs pass, where zones are on and no round up to it takes a vertex out of the
/// box. The failing pairs of the asked shifts are handed in.
pub(crate) fn by_zones<S: Surface>(
    alloc: Global,
    mesh: &S,
    near: &ListOfMesh<'_>,
    asked: &Shifts,
    hits: &Pairs,
    set: Settings,
) -> Result<Option<StepWay>, NoMemory>
    requires named { NameLive (S.mesh mesh.now) asked.now }
    requires clear { IsClearMesh (S.mesh mesh.now) }
    requires of_mesh { IsOfMesh (S.mesh mesh.now) near.now }
    requires hits { hits.now ≡ failing meets_exactly (S.mesh mesh.now) asked.now set.depth }
    requires depth { set.depth ≤ DEPTH_MAX }
    ensures { IfOk result
        (λ found. option_map way_by found ≡ zones_way meets_exactly
        (S.mesh mesh.now) asked.now set.depth set.zones) }
{
    if !set.zones {
        return Ok(None);
    }
    let near = ListSource {
        list: *near,
        asked: asked.as_slice(),
        hits: hits.as_slice(),
        depth: set.depth,
    };
    match zones_told(alloc, mesh, &near, asked, set.depth)? {
        Some(round) => Ok(Some(StepWay {
            how: How::Zones {
                rounds: round.rounds,
            },
            taken: round.taken,
            blocks: round.blocks,
        })),
        None => Ok(None),
    }
}
