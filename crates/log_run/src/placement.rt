//! Vertices that move.
ghost use Rattle.std.specs.Prelude.{◌≡◌, not, OnOk};
ghost use Rattle.grid_base.specs.declared.TheConstants.{BOX};
ghost use Rattle.grid_base.specs.Points.{is_within};
ghost use Rattle.mesh_base.specs.Kept.{BeginsWith};
ghost use Rattle.mesh_base.specs.Mesh.{IsLiveVertex};
ghost use Rattle.mesh_base.specs.Shifts.{with_move, with_moves};
ghost use Rattle.log_replay.specs.Moves.{end_of};
ghost use Rattle.log_run.specs.Placing.{CanMove, CanMoveAll};

use grid_base::{NoMemory, moved};
use mesh_base::{ShiftOf, Surface};

/// Whether a move ends outside the box.
pub(crate) fn ends_outside<S: Surface>(mesh: &S, s: &ShiftOf) -> bool
    requires { IsLiveVertex (S.mesh mesh.now) s.now.v }
    ensures { result ≡ not (is_within BOX (end_of (S.mesh mesh.now) s.now)) }
{
    match mesh.point(s.v) {
        Some(p) => moved(p, s.by).is_none(),
        None => unreachable!(),
    }
}

// Moves a vertex.
fn place_one<S: Surface>(mesh: &mut S, s: &ShiftOf) -> Result<(), NoMemory>
    requires { CanMove (S.mesh mesh.old) s.now }
    ensures moved { OnOk result (S.mesh mesh.new ≡ with_move (S.mesh mesh.old) s.now) }
    ensures marks { BeginsWith (S.kept mesh.new) (S.kept mesh.old) }
{
    let Some(p) = mesh.point(s.v) else {
        unreachable!()
    };
    let Some(end) = moved(p, s.by) else {
        unreachable!()
    };
    mesh.place(s.v, end)?;
    Ok(())
}

/// Moves vertices, one after another. Where memory is wanting, some of them may be moved.
pub(crate) fn place_all<S: Surface>(mesh: &mut S, moves: &[ShiftOf]) -> Result<(), NoMemory>
    requires { CanMoveAll (S.mesh mesh.old) moves.now }
    ensures moved { OnOk result (S.mesh mesh.new ≡ with_moves (S.mesh mesh.old) moves.now) }
    ensures marks { BeginsWith (S.kept mesh.new) (S.kept mesh.old) }
{
    for s in moves {
        place_one(mesh, s)?;
    }
    Ok(())
}
