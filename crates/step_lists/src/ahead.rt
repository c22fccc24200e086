//! Whether a list promises to live, and with which skin. Only speed depends on it.
ghost use Rattle.std.specs.Prelude.{◌≤◌, IfOk, IfSome};
ghost use Rattle.grid_base.specs.declared.TheConstants.{HALF_MAX};

use crate::lengths::typical_length;
use crate::spread::{many_move, spread_of};
use grid_base::{HALF_MAX, NoMemory};
use mesh_base::{ShiftOf, Surface};
use std::alloc::Global;

/// A mesh of fewer faces is scanned without a list.
const FACES_LEAST: u32 = 512;

// The skin for steps in which the shifts of near vertices spread so far, in a mesh with edges of this length: ten times the
// spread, from an eighth to two fifths of an edge. None, where it is less than 6/5 of the spread, so that it would hardly
// last one step.
fn skin_for(spread: u32, edge: u32) -> Option<u32>
    ensures { IfSome result (λ skin. skin ≤ HALF_MAX) }
{
    let widest = (edge / 5).saturating_mul(2);
    let skin = spread
        .saturating_mul(10)
        .max(edge / 8)
        .min(widest)
        .min(HALF_MAX);
    if skin / 6 < spread / 5 || skin == 0 {
        None
    } else {
        Some(skin)
    }
}

/// The skin of a list that is worth while after a step by these shifts; None where none is.
pub(crate) fn skin_ahead<S: Surface>(
    alloc: Global,
    mesh: &S,
    asked: &[ShiftOf],
) -> Result<Option<u32>, NoMemory>
    ensures { IfOk result (λ o. IfSome o (λ skin. skin ≤ HALF_MAX)) }
{
    if mesh.faces() < FACES_LEAST || !many_move(asked) {
        return Ok(None);
    }
    let edge = typical_length(alloc, mesh)?;
    Ok(skin_for(spread_of(mesh, asked), edge))
}
