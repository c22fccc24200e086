ghost use Rattle.std.specs.Prelude.{◌↔◌, IsTrue};
ghost use Rattle.std.specs.List.{Any};
ghost use Rattle.grid_base.specs.Separation.{KeepsApart, TakesApart, axes};

use crate::heights::{along_x, along_y, along_z, heights_keep_apart, heights_take_apart};
use grid_base::Positions;

/// Whether one of the three axes keeps the edge on one side at both ends. No product is needed for it.
#[inline(always)]
pub fn axis_keeps_apart(s: &Positions, t: &Positions) -> bool
    ensures { IsTrue result ↔ Any (KeepsApart s.now t.now) axes }
{
    if heights_keep_apart(along_x(s), along_x(t)) {
        return true;
    }
    if heights_keep_apart(along_y(s), along_y(t)) {
        return true;
    }
    heights_keep_apart(along_z(s), along_z(t))
}

// Whether one of the three axes takes the edge to one side.
pub(crate) fn axis_takes_apart(s: &Positions, t: &Positions) -> bool
    ensures { IsTrue result ↔ Any (TakesApart s.now t.now) axes }
{
    if heights_take_apart(along_x(s), along_x(t)) {
        return true;
    }
    if heights_take_apart(along_y(s), along_y(t)) {
        return true;
    }
    heights_take_apart(along_z(s), along_z(t))
}
