//! Whether shifts end in the box.
ghost use Rattle.std.specs.Prelude.{◌≡◌};
ghost use Rattle.grid_base.specs.declared.TheConstants.{BOX};
ghost use Rattle.grid_base.specs.Triples.{plus};
ghost use Rattle.grid_base.specs.Points.{displacement_of, is_within};
ghost use Rattle.mesh_base.specs.Placements.{rest_positions};
ghost use Rattle.mesh_base.specs.Shifts.{end_in_box};

use grid_base::moved;
use mesh_base::{ShiftOf, Surface, point_of};

// Whether a vertex ends in the box.
fn ends_in_box<S: Surface>(mesh: &S, s: ShiftOf) -> bool
    ensures { result ≡ is_within BOX
        (plus (rest_positions (S.mesh mesh.now) s.v) (displacement_of s.by)) }
{
    moved(point_of(mesh, s.v), s.by).is_some()
}

/// Whether no shift takes its vertex out of the box.
pub fn end_in_box<S: Surface>(mesh: &S, shifts: &[ShiftOf]) -> bool
    ensures { result ≡ end_in_box (S.mesh mesh.now) shifts.now }
{
    for s in shifts {
        if !ends_in_box(mesh, *s) {
            return false;
        }
    }
    true
}
