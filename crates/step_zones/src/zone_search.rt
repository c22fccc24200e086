ghost use Rattle.std.specs.Prelude.{◌≡◌, ◌≤◌, IfOk, IfSome};
ghost use Rattle.grid_base.specs.declared.TheConstants.{DEPTH_MAX};
ghost use Rattle.grid_decided.specs.Decided.{meets_exactly};
ghost use Rattle.mesh_base.specs.Placements.{IsClearMesh};
ghost use Rattle.mesh_base.specs.Shifts.{NameLive};
ghost use Rattle.pair_scan.specs.Solids.{SolidsStay};
ghost use Rattle.step_zones.specs.Zoned.{zoned_taken, ServesFirst, IsBelowVertices};

use crate::blocks::{blocks_of, zone_shifts};
use crate::failing_source::{ByScan, TellsFailing};
use crate::found::Zoned;
use crate::labels::{alone, join_all};
use grid_base::NoMemory;
use mesh_base::{Shifts, Surface};
use pair_scan::end_in_box;
use std::alloc::Global;

/// The first zone round in which no pair fails. Round 0 has the asked shifts, and each vertex is a block by itself. The blocks of
/// each next round are those that a chain of failing pairs of the rounds before joins. A block of two or more has the mean of
/// its asked shifts, each component rounded toward zero, and none where it holds a solid vertex; a single vertex has its own.
/// None exactly where a round takes a vertex out of the box before one has no failing pair. The mesh is clear, and the shifts
/// name its live vertices, by rising id. Refuses only where there is no memory.
///
/// Impact zones are those of Provot (1997) and of Bridson, Fedkiw and Anderson (2002), without rotation.
pub fn zones<S: Surface>(
    alloc: Global,
    mesh: &S,
    asked: &Shifts,
    depth: u8,
) -> Result<Option<Zoned>, NoMemory>
    requires named { NameLive (S.mesh mesh.now) asked.now }
    requires clear { IsClearMesh (S.mesh mesh.now) }
    requires depth { depth ≤ DEPTH_MAX }
    ensures zoned { IfOk result
        (λ z. z ≡ zoned_taken meets_exactly (S.mesh mesh.now) asked.now depth) }
    // None: a round leaves the box before one serves. Some: the round serves, and none before it does.
    ensures first { IfOk result (ServesFirst meets_exactly (S.mesh mesh.now) asked.now depth) }
    // Where a vertex lives there are fewer rounds than live vertices.
    ensures few { IfOk result (λ z. IfSome z (IsBelowVertices (S.mesh mesh.now))) }
    ensures names { IfOk result (λ z. IfSome z (λ r. NameLive (S.mesh mesh.now) r.taken)) }
    // A solid vertex of which no shift is asked gets none.
    ensures solid { IfOk result
        (λ z. IfSome z (λ r. SolidsStay (S.mesh mesh.now) asked.now r.taken)) }
{
    zones_told(alloc, mesh, &ByScan, asked, depth)
}

/// The same, where the failing pairs of each round are told by what can tell them of this mesh.
pub fn zones_told<S: Surface, T: TellsFailing>(
    alloc: Global,
    mesh: &S,
    tells: &T,
    asked: &Shifts,
    depth: u8,
) -> Result<Option<Zoned>, NoMemory>
    requires can { T.can_tell tells.now (S.mesh mesh.now) }
    requires named { NameLive (S.mesh mesh.now) asked.now }
    requires clear { IsClearMesh (S.mesh mesh.now) }
    requires depth { depth ≤ DEPTH_MAX }
    ensures zoned { IfOk result
        (λ z. z ≡ zoned_taken meets_exactly (S.mesh mesh.now) asked.now depth) }
    // None: a round leaves the box before one serves. Some: the round serves, and none before it does.
    ensures first { IfOk result (ServesFirst meets_exactly (S.mesh mesh.now) asked.now depth) }
    // Where a vertex lives there are fewer rounds than live vertices.
    ensures few { IfOk result (λ z. IfSome z (IsBelowVertices (S.mesh mesh.now))) }
    ensures names { IfOk result (λ z. IfSome z (λ r. NameLive (S.mesh mesh.now) r.taken)) }
    // A solid vertex of which no shift is asked gets none.
    ensures solid { IfOk result
        (λ z. IfSome z (λ r. SolidsStay (S.mesh mesh.now) asked.now r.taken)) }
{
    let mut labels = alone(alloc, asked.as_slice())?;
    let mut places = Vec::new(alloc);
    let mut rounds = 0;
    'round: loop {
        let taken = zone_shifts(alloc, mesh, asked.as_slice(), labels.as_slice())?;
        if !end_in_box(mesh, taken.as_slice()) {
            return Ok(None);
        }
        let hits = tells.failing(alloc, mesh, &taken, depth)?;
        if hits.len() == 0 {
            let blocks = blocks_of(alloc, mesh, asked.as_slice(), labels.as_slice())?;
            return Ok(Some(Zoned {
                rounds,
                taken,
                blocks,
            }));
        }
        join_all(mesh, asked.as_slice(), &mut labels, &mut places, &hits)?;
        rounds += 1;
    }
}
