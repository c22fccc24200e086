//! Whether all pairs pass in a step, as is seen near the few vertices that it asks to move.
ghost use Rattle.std.specs.Prelude.{◌≤◌, IsTrue, IfOk};
ghost use Rattle.grid_base.specs.declared.TheConstants.{DEPTH_MAX};
ghost use Rattle.mesh_base.specs.Placements.{IsClearMesh};
ghost use Rattle.mesh_base.specs.Shifts.{NameLive, end_in_box};
ghost use Rattle.pair_scan.specs.Answers.{TellsWhetherAllPass};
ghost use Rattle.step_near.specs.Few.{TellsWhetherFewPass, NoneFailsIfFewPass};

use crate::few::are_few;
use crate::moves::moves_by;
use edit_check::{Move, Touch, check};
use grid_base::{DEPTH_MAX, NoMemory};
use mesh_base::{Shifts, Surface};
use pair_scan::all_pass;
use std::alloc::Global;

/// So many faces are few.
const FACES_FEW: usize = 64;

/// Whether the vertices that move have few faces. Among many of them, far from each other, a look near takes longer than a
/// scan of all pairs. Only speed depends on it.
fn have_few_faces<S: Surface>(alloc: Global, mesh: &S, moves: &[Move]) -> Result<bool, NoMemory> {
    let mut at = Vec::new(alloc);
    let mut count: usize = 0;
    for m in moves {
        mesh.faces_at(m.v, &mut at)?;
        count = count.saturating_add(at.len());
    }
    Ok(count <= FACES_FEW)
}

/// Whether all pairs of a clear mesh pass in the step, as is seen near the vertices that move where these have few faces.
fn none_fails<S: Surface>(
    alloc: Global,
    mesh: &S,
    asked: &Shifts,
    depth: u8,
) -> Result<bool, NoMemory>
    requires named { NameLive (S.mesh mesh.now) asked.now }
    requires in_box { IsTrue (end_in_box (S.mesh mesh.now) asked.now) }
    requires clear { IsClearMesh (S.mesh mesh.now) }
    requires depth { depth ≤ DEPTH_MAX }
    ensures { IfOk result (TellsWhetherAllPass (S.mesh mesh.now) asked.now depth) }
{
    let moves = moves_by(alloc, mesh, asked.as_slice())?;
    let is_near = have_few_faces(alloc, mesh, moves.as_slice())?;
    if !is_near {
        return all_pass(alloc, mesh, asked, depth);
    }
    let fresh_from = mesh.next_face();
    let found = check(
        alloc,
        mesh,
        moves.as_slice(),
        Touch::Never,
        &[],
        fresh_from,
        depth,
    )?;
    Ok(found.is_none())
}

/// Whether few vertices of a clear mesh are asked to move, at most `FEW_MAX`, and all pairs of the mesh pass in the step.
/// What is looked at are the faces near one box around these vertices, their faces and their way, as the mesh finds them:
/// nothing, where none is asked to move, and nothing, where more are; and all pairs, where they have many faces. Refuses
/// only where there is no memory.
///
/// That an edit of a mesh is tested by what is near it is after El Topo (Brochu and Bridson 2009); a step of few vertices
/// is such a motion too.
pub fn all_pass_near<S: Surface>(
    alloc: Global,
    mesh: &S,
    asked: &Shifts,
    depth: u8,
) -> Result<bool, NoMemory>
    requires named { NameLive (S.mesh mesh.now) asked.now }
    requires in_box { IsTrue (end_in_box (S.mesh mesh.now) asked.now) }
    requires clear { IsClearMesh (S.mesh mesh.now) }
    requires depth { depth ≤ DEPTH_MAX }
    ensures exact { IfOk result (TellsWhetherFewPass (S.mesh mesh.now) asked.now depth) }
    // All pass: no pair is among those that do not.
    ensures none { IfOk result (NoneFailsIfFewPass (S.mesh mesh.now) asked.now depth) }
{
    if !are_few(asked.as_slice()) {
        return Ok(false);
    }
    let pass = none_fails(alloc, mesh, asked, depth)?;
    Ok(pass)
}
