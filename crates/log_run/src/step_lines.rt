//! The lines of a step.
ghost use Rattle.std.specs.Prelude.{◌≡◌, ◌↔◌, ◌<◌, ◌++◌, ◌∷◌, [], ℕ, length, map, true, false, Ok, IfOk, OnOk, IsSome, IfSome, Some, slice_get, slice_set};
ghost use Rattle.std.specs.FinMap as finite;
ghost use Rattle.mesh_base.specs.declared.How.{How};
ghost use Rattle.log_text.specs.declared.LogLine.TheVariants.{Step, Move, Moved};
ghost use Rattle.log_replay.specs.Moves.{MayMove};
ghost use Rattle.log_run.specs.Steps.{still_at};
ghost use Rattle.log_run.specs.Parts.{StepHolds, Holds, Takes};

use crate::placement::{ends_outside, place_all};
use crate::replay_state::{ReplayState, StepSoFar};
use crate::settlement::settle_if_none;
use grid_base::{Items, NO_SHIFT, NoMemory};
use mesh_base::{ShiftOf, Shifts, Surface, VertexId, live_vertices};
use pair_scan::place_of;
use std::alloc::Global;

// No shift for each of the vertices.
fn all_still(alloc: Global, ids: &[VertexId]) -> Result<Shifts, NoMemory>
    ensures { IfOk result (λ shifts. shifts ≡ map still_at ids.now) }
{
    let mut shifts = Shifts::new(alloc);
    for v in ids {
        shifts.push(ShiftOf {
            v: *v,
            by: NO_SHIFT,
        })?;
    }
    Ok(shifts)
}

// For each of the vertices, that no move names it.
fn none_named(alloc: Global, ids: &[VertexId]) -> Result<Items<bool>, NoMemory>
    ensures { IfOk result (λ named. named ≡ map (λ v. false) ids.now) }
{
    let mut named = Items::new(alloc);
    for _v in ids {
        named.push(false)?;
    }
    Ok(named)
}

// A step of which no move is told yet.
fn step_at_rest<S: Surface>(alloc: Global, mesh: &S) -> Result<StepSoFar, NoMemory>
    ensures moves { IfOk result (λ step. step.moves ≡ []) }
    ensures holds { IfOk result (λ step. StepHolds (S.mesh mesh.now) step) }
{
    let ids = live_vertices(alloc, mesh)?;
    let shifts = all_still(alloc, ids.as_slice())?;
    let named = none_named(alloc, ids.as_slice())?;
    Ok(StepSoFar {
        moves: Shifts::new(alloc),
        shifts,
        named,
    })
}

/// Takes the line of a step that begins.
pub(crate) fn begin_step<S: Surface>(
    alloc: Global,
    mesh: &S,
    at: &mut ReplayState,
) -> Result<bool, NoMemory>
    requires { Holds S.beyond (S.mesh mesh.now) (S.kept mesh.now) at.old }
    ensures { (k : ℕ) → Takes S.beyond (Step k)
        (S.mesh mesh.now) (S.kept mesh.now) at.old
        (S.mesh mesh.now) (S.kept mesh.now) at.new result }
{
    if at.begun {
        return Ok(false);
    }
    let Ok(step) = step_at_rest(alloc, mesh) else {
        return Err(NoMemory);
    };
    at.step = step;
    at.begun = true;
    Ok(true)
}

// Whether the item at a place is set.
fn is_set(named: &Items<bool>, place: usize) -> bool
    requires { place < length named.now }
    ensures { Some result ≡ slice_get named.now place }
{
    match named.get(place) {
        Some(set) => *set,
        None => unreachable!(),
    }
}

// The place of a vertex that may move, among the live ones by rising id.
fn place_to_move<S: Surface>(mesh: &S, step: &StepSoFar, s: &ShiftOf) -> Option<usize>
    requires { StepHolds (S.mesh mesh.now) step.now }
    ensures may { IsSome result ↔ MayMove (S.mesh mesh.now) step.now.moves s.now }
    ensures place { IfSome result
        (λ i. slice_get (finite.keys (S.mesh mesh.now).points) i ≡ Some s.now.v) }
{
    let Some(place) = place_of(step.shifts.as_slice(), s.v) else {
        return None;
    };
    if mesh.solid(s.v) {
        return None;
    }
    if is_set(&step.named, place) {
        return None;
    }
    if ends_outside(mesh, s) {
        return None;
    }
    Some(place)
}

// Puts a move to the others, where its vertex has this place.
fn put_move(step: &mut StepSoFar, place: usize, s: &ShiftOf) -> Result<(), NoMemory>
    requires shifts { place < length step.old.shifts }
    requires named { place < length step.old.named }
    ensures { OnOk result (step.new ≡ record {
      moves = step.old.moves ++ s.now ∷ [];
      shifts = slice_set step.old.shifts place s.now;
      named = slice_set step.old.named place true;
    }) }
{
    step.moves.push(*s)?;
    step.shifts.set(place, *s);
    step.named.set(place, true);
    Ok(())
}

/// Takes the line of a move.
pub(crate) fn take_move<S: Surface>(
    mesh: &S,
    at: &mut ReplayState,
    s: &ShiftOf,
) -> Result<bool, NoMemory>
    requires { Holds S.beyond (S.mesh mesh.now) (S.kept mesh.now) at.old }
    ensures { Takes S.beyond (Move s.now)
        (S.mesh mesh.now) (S.kept mesh.now) at.old
        (S.mesh mesh.now) (S.kept mesh.now) at.new result }
{
    if !at.begun {
        return Ok(false);
    }
    let Some(place) = place_to_move(mesh, &at.step, s) else {
        return Ok(false);
    };
    let Ok(()) = put_move(&mut at.step, place, s) else {
        return Err(NoMemory);
    };
    Ok(true)
}

/// Takes the line by which a step takes effect.
pub(crate) fn end_step<S: Surface>(
    alloc: Global,
    mesh: &mut S,
    at: &mut ReplayState,
) -> Result<bool, NoMemory>
    requires { Holds S.beyond (S.mesh mesh.old) (S.kept mesh.old) at.old }
    ensures { (how : How) → Takes S.beyond (Moved how)
        (S.mesh mesh.old) (S.kept mesh.old) at.old
        (S.mesh mesh.new) (S.kept mesh.new) at.new result }
{
    if !at.begun {
        return Ok(false);
    }
    settle_if_none(mesh, &at.marks);
    let Ok(()) = place_all(mesh, at.step.moves.as_slice()) else {
        return Err(NoMemory);
    };
    at.step.moves = Shifts::new(alloc);
    at.begun = false;
    Ok(true)
}
