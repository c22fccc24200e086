ghost use Rattle.std.specs.Prelude.{◌≡◌, ◌≤◌, IsTrue, IfOk};
ghost use Rattle.grid_base.specs.declared.TheConstants.{DEPTH_MAX, HALVINGS_MAX};
ghost use Rattle.grid_decided.specs.Decided.{meets_exactly};
ghost use Rattle.mesh_base.specs.Placements.{IsClearMesh};
ghost use Rattle.mesh_base.specs.Shifts.{NameLive, end_in_box};
ghost use Rattle.pair_scan.specs.Answers.{AreAllFailing, IsClearOnTheWay};
ghost use Rattle.pair_scan.specs.Solids.{SolidsRest};
ghost use Rattle.step_choose.specs.Choice.{way_taken};
ghost use Rattle.step_choose.specs.Chosen.{HasHits, IsWayTaken, TakesFirstWay};
ghost use Rattle.step_choose.specs.StepWay.{way_by};

use crate::asked_pairs::asked_hits;
use crate::halved_shifts::{all_at_rest, by_halving};
use crate::impulses::by_impulses;
use crate::rounds::by_zones;
use crate::settings::Settings;
use crate::way::StepWay;
use grid_base::{NoMemory, copy_of};
use mesh_base::{How, Shifts, Surface};
use pair_scan::Pairs;
use std::alloc::Global;
use step_lists::StepLists;
use step_zones::Blocks;

/// How a step is taken.
#[derive(Drop)]
pub struct Choice {
    /// The pairs that do not pass in the asked step, in order.
    pub hits: Pairs,
    /// Which way is the first that applies.
    pub how: How,
    /// The shifts that are taken.
    pub taken: Shifts,
    /// The blocks of two or more vertices that move as one, where impact zones are the way.
    pub blocks: Blocks,
}

// The first way that applies, where these are the failing pairs of the asked shifts. What is tried is asked of the list that is
// kept, which is compared with the mesh once; where no pair fails, it is not looked at.
fn first_way<S: Surface>(
    alloc: Global,
    mesh: &S,
    lists: &StepLists,
    asked: &Shifts,
    hits: &Pairs,
    set: Settings,
) -> Result<StepWay, NoMemory>
    requires named { NameLive (S.mesh mesh.now) asked.now }
    requires in_box { IsTrue (end_in_box (S.mesh mesh.now) asked.now) }
    requires clear { IsClearMesh (S.mesh mesh.now) }
    requires hits { AreAllFailing (S.mesh mesh.now) asked.now set.depth hits.now }
    requires depth { set.depth ≤ DEPTH_MAX }
    requires halvings { set.halvings ≤ HALVINGS_MAX }
    ensures { IfOk result
        (λ found. way_by found ≡ way_taken meets_exactly (S.mesh mesh.now) asked.now set) }
{
    if hits.len() == 0 {
        return Ok(StepWay {
            how: How::Whole,
            taken: copy_of(alloc, asked.as_slice())?,
            blocks: Blocks::new(alloc),
        });
    }
    let near = lists.of_mesh(alloc, mesh)?;
    if let Some(found) = by_impulses(alloc, mesh, &near, asked, hits, set)? {
        return Ok(found);
    }
    if let Some(found) = by_zones(alloc, mesh, &near, asked, hits, set)? {
        return Ok(found);
    }
    if let Some(found) = by_halving(alloc, mesh, &near, asked, set)? {
        return Ok(found);
    }
    Ok(StepWay {
        how: How::Zero,
        taken: all_at_rest(alloc, asked.as_slice())?,
        blocks: Blocks::new(alloc),
    })
}

/// How a step is taken, as `choose` answers it, where the failing pairs of the asked shifts are at hand. So what does not pass can be
/// told before the way is looked for. The list that is kept answers for what is tried, where it is one of the mesh and serves.
pub fn choose_by_hits<S: Surface>(
    alloc: Global,
    mesh: &S,
    lists: &StepLists,
    asked: &Shifts,
    hits: Pairs,
    set: &Settings,
) -> Result<Choice, NoMemory>
    requires named { NameLive (S.mesh mesh.now) asked.now }
    requires in_box { IsTrue (end_in_box (S.mesh mesh.now) asked.now) }
    requires clear { IsClearMesh (S.mesh mesh.now) }
    requires solid { SolidsRest (S.mesh mesh.now) asked.now }
    requires hits { AreAllFailing (S.mesh mesh.now) asked.now set.now.depth hits }
    requires depth { set.now.depth ≤ DEPTH_MAX }
    requires halvings { set.now.halvings ≤ HALVINGS_MAX }
    ensures hits { IfOk result (HasHits (S.mesh mesh.now) asked.now set.now) }
    ensures way { IfOk result (IsWayTaken (S.mesh mesh.now) asked.now set.now) }
    ensures first { IfOk result (TakesFirstWay (S.mesh mesh.now) asked.now set.now) }

    // The shifts taken name the live vertices, end in the box, leave solid vertices where they are, and keep the mesh clear
    // at every fraction.
    ensures clear_along { IfOk result (λ c. IsClearOnTheWay (S.mesh mesh.now) c.taken) }
    ensures names { IfOk result (λ c. NameLive (S.mesh mesh.now) c.taken) }
    ensures ends { IfOk result (λ c. IsTrue (end_in_box (S.mesh mesh.now) c.taken)) }
    ensures solid { IfOk result (λ c. SolidsRest (S.mesh mesh.now) c.taken) }
{
    let found = first_way(alloc, mesh, lists, asked, &hits, *set)?;
    Ok(Choice {
        hits,
        how: found.how,
        taken: found.taken,
        blocks: found.blocks,
    })
}

/// How a step that asks these shifts of the live vertices of a clear mesh is taken. The first of these ways that applies:
/// the asked shifts, where all pairs pass in the test of the whole motion (`Whole`); the shifts after the fewest impulse
/// passes, from 1 to the set number, after which all pairs pass (`Impulse`); where zones are on, the shifts of the first
/// round of impact zones in which all pairs pass (`Zones`); the asked shifts, each component divided by 2^m and rounded
/// toward zero, for the least m from 1 to the set number with which all pairs pass (`Halved`); no shifts (`Zero`). A pass or
/// a round that takes a vertex out of the box ends its search. The motion taken keeps the mesh clear at every fraction, and
/// solid vertices, of which no shift is asked, stay in it. Refuses only where there is no memory.
///
/// That a step is taken unaltered, or else met by impulses, by impact zones, or shortened until its motion is free of
/// collisions, is after Brochu and Bridson (2009).
pub fn choose<S: Surface>(
    alloc: Global,
    mesh: &S,
    asked: &Shifts,
    set: &Settings,
) -> Result<Choice, NoMemory>
    requires named { NameLive (S.mesh mesh.now) asked.now }
    requires in_box { IsTrue (end_in_box (S.mesh mesh.now) asked.now) }
    requires clear { IsClearMesh (S.mesh mesh.now) }
    requires solid { SolidsRest (S.mesh mesh.now) asked.now }
    requires depth { set.now.depth ≤ DEPTH_MAX }
    requires halvings { set.now.halvings ≤ HALVINGS_MAX }
    ensures hits { IfOk result (HasHits (S.mesh mesh.now) asked.now set.now) }
    ensures way { IfOk result (IsWayTaken (S.mesh mesh.now) asked.now set.now) }
    ensures first { IfOk result (TakesFirstWay (S.mesh mesh.now) asked.now set.now) }

    // The shifts taken name the live vertices, end in the box, leave solid vertices where they are, and keep the mesh clear
    // at every fraction.
    ensures clear_along { IfOk result (λ c. IsClearOnTheWay (S.mesh mesh.now) c.taken) }
    ensures names { IfOk result (λ c. NameLive (S.mesh mesh.now) c.taken) }
    ensures ends { IfOk result (λ c. IsTrue (end_in_box (S.mesh mesh.now) c.taken)) }
    ensures solid { IfOk result (λ c. SolidsRest (S.mesh mesh.now) c.taken) }
{
    let hits = asked_hits(alloc, mesh, asked, set.depth)?;
    choose_by_hits(alloc, mesh, &StepLists::none(), asked, hits, set)
}
