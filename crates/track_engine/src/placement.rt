ghost use Rattle.std.specs.Prelude.{◌≡◌, not, true, OnOk};
ghost use Rattle.grid_base.specs.declared.TheConstants.{BOX};
ghost use Rattle.grid_base.specs.Triples.{IsWithin};
ghost use Rattle.grid_base.specs.Points.{is_within};
ghost use Rattle.mesh_base.specs.Mesh.{IsLiveVertex};
ghost use Rattle.mesh_base.specs.Kept.{BeginsWith};
ghost use Rattle.track_engine.specs.Effects.{moves, end_of, first_outside, moved_mesh};
ghost use Rattle.track_engine.specs.Placing.{AreLive, CanPlace, moved_one};

use crate::shift_sums::moves;
use grid_base::{NoMemory, moved};
use mesh_base::{ShiftOf, Surface, VertexId};

// Whether the vertex's asked end is outside the box.
fn ends_outside<S: Surface>(mesh: &S, s: &ShiftOf) -> bool
    requires { IsLiveVertex (S.mesh mesh.now) s.now.v }
    ensures { result ≡ not (is_within BOX (end_of (S.mesh mesh.now) s.now)) }
{
    match mesh.point(s.v) {
        Some(p) => moved(p, s.by).is_none(),
        None => unreachable!(),
    }
}

/// The first vertex whose asked end is outside the box.
pub(crate) fn first_outside<S: Surface>(mesh: &S, asked: &[ShiftOf]) -> Option<VertexId>
    requires { AreLive (S.mesh mesh.now) asked.now }
    ensures { result ≡ first_outside (S.mesh mesh.now) asked.now }
{
    for s in asked {
        if ends_outside(mesh, s) {
            return Some(s.v);
        }
    }
    None
}

// Moves a vertex by its shift.
fn place_one<S: Surface>(mesh: &mut S, s: &ShiftOf) -> Result<(), NoMemory>
    requires { moves s.now ≡ true →
        IsLiveVertex (S.mesh mesh.old) s.now.v × IsWithin BOX (end_of (S.mesh mesh.old) s.now) }
    ensures moved { OnOk result (S.mesh mesh.new ≡ moved_one (S.mesh mesh.old) s.now) }
    ensures marks { BeginsWith (S.kept mesh.new) (S.kept mesh.old) }
{
    if !moves(s) {
        return Ok(());
    }
    let Some(p) = mesh.point(s.v) else {
        unreachable!()
    };
    let Some(end) = moved(p, s.by) else {
        unreachable!()
    };
    mesh.place(s.v, end)?;
    Ok(())
}

/// Moves each vertex by its shift.
pub(crate) fn place_all<S: Surface>(mesh: &mut S, asked: &[ShiftOf]) -> Result<(), NoMemory>
    requires { CanPlace (S.mesh mesh.old) asked.now }
    ensures moved { OnOk result (S.mesh mesh.new ≡ moved_mesh (S.mesh mesh.old) asked.now) }
    ensures marks { BeginsWith (S.kept mesh.new) (S.kept mesh.old) }
{
    for s in asked {
        place_one(mesh, s)?;
    }
    Ok(())
}
