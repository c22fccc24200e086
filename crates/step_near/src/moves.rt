//! The moves of the vertices that a step asks to move, in half units.
ghost use Rattle.std.specs.Prelude.{◌≡◌, true, IfOk};
ghost use Rattle.grid_base.specs.declared.TheConstants.{BOX};
ghost use Rattle.grid_base.specs.Points.{is_within};
ghost use Rattle.mesh_base.specs.Shifts.{end_in_box};
ghost use Rattle.step_near.specs.Moving.{end_of, move_by, moves_by};

use crate::few::is_shifted;
use edit_base::Move;
use grid_base::{Items, NoMemory, moved};
use mesh_base::{ShiftOf, Surface, point_of};
use std::alloc::Global;

/// The move of the vertex of a shift, which ends in the box.
fn move_by<S: Surface>(mesh: &S, s: &ShiftOf) -> Move
    requires { is_within BOX (end_of (S.mesh mesh.now) s.now) ≡ true }
    ensures { result ≡ move_by (S.mesh mesh.now) s.now }
{
    let here = point_of(mesh, s.v);
    let Some(there) = moved(here, s.by) else {
        unreachable!()
    };
    Move {
        v: s.v,
        start: here.doubled(),
        end: there.doubled(),
    }
}

/// The moves of the vertices that are asked to move, each of which ends in the box.
pub(crate) fn moves_by<S: Surface>(
    alloc: Global,
    mesh: &S,
    asked: &[ShiftOf],
) -> Result<Items<Move>, NoMemory>
    requires { end_in_box (S.mesh mesh.now) asked.now ≡ true }
    ensures { IfOk result (λ moves. moves ≡ moves_by (S.mesh mesh.now) asked.now) }
{
    let mut moves = Items::new(alloc);
    for s in asked {
        if is_shifted(s) {
            moves.push(move_by(mesh, s))?;
        }
    }
    Ok(moves)
}
