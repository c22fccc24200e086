//! Whether a step asks few vertices to move.
ghost use Rattle.std.specs.Prelude.{◌≡◌};
ghost use Rattle.step_near.specs.Few.{is_shifted, are_few};

use crate::FEW_MAX;
use mesh_base::ShiftOf;

/// Whether the vertex is asked to move.
pub(crate) fn is_shifted(s: &ShiftOf) -> bool
    ensures { result ≡ is_shifted s.now }
{
    s.by.x != 0 || s.by.y != 0 || s.by.z != 0
}

/// Whether at most `FEW_MAX` vertices are asked to move.
pub(crate) fn are_few(asked: &[ShiftOf]) -> bool
    ensures { result ≡ are_few asked.now }
{
    let mut left = FEW_MAX;
    for s in asked {
        if is_shifted(s) {
            if left == 0 {
                return false;
            }
            left -= 1;
        }
    }
    true
}
