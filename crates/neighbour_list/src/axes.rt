//! Whether an axis keeps an edge and a face apart. It takes no product.
ghost use Rattle.std.specs.Prelude.{◌≡◌, ◌≤◌, unsigned_abs, IsTrue};
ghost use Rattle.std.specs.List.{Any};
ghost use Rattle.grid_base.specs.declared.TheConstants.{HALF_MAX};
ghost use Rattle.grid_base.specs.Separation.{KeepsApart, axes};
ghost use Rattle.motion_test.specs.Heights.{axis_x, axis_y, axis_z};
ghost use Rattle.neighbour_list.specs.FivePaths.{starts_of, ends_of};

use crate::five_paths::FivePaths;
use crate::heights::{are_above, are_below};
use pair_paths::Position;

// The first coordinate of a position.
#[inline(always)]
fn x(p: Position) -> i128
    ensures value { result ≡ p.x }
    ensures within { unsigned_abs result ≤ HALF_MAX }
{
    p.wide().x
}

// The second one.
#[inline(always)]
fn y(p: Position) -> i128
    ensures value { result ≡ p.y }
    ensures within { unsigned_abs result ≤ HALF_MAX }
{
    p.wide().y
}

// The third one.
#[inline(always)]
fn z(p: Position) -> i128
    ensures value { result ≡ p.z }
    ensures within { unsigned_abs result ≤ HALF_MAX }
{
    p.wide().z
}

// Whether the axis x keeps the edge on one side of the face, at the start and at the end.
#[inline(always)]
fn x_keeps_apart(p: &FivePaths<'_>) -> bool
    ensures { IsTrue result → KeepsApart (starts_of p.now) (ends_of p.now) axis_x }
{
    if are_below(
        x(p.a.start),
        x(p.b.start),
        x(p.c.start),
        x(p.d.start),
        x(p.e.start),
    ) {
        return are_below(x(p.a.end), x(p.b.end), x(p.c.end), x(p.d.end), x(p.e.end));
    }
    if are_above(
        x(p.a.start),
        x(p.b.start),
        x(p.c.start),
        x(p.d.start),
        x(p.e.start),
    ) {
        return are_above(x(p.a.end), x(p.b.end), x(p.c.end), x(p.d.end), x(p.e.end));
    }
    false
}

// Whether the axis y keeps the edge on one side of the face, at the start and at the end.
#[inline(always)]
fn y_keeps_apart(p: &FivePaths<'_>) -> bool
    ensures { IsTrue result → KeepsApart (starts_of p.now) (ends_of p.now) axis_y }
{
    if are_below(
        y(p.a.start),
        y(p.b.start),
        y(p.c.start),
        y(p.d.start),
        y(p.e.start),
    ) {
        return are_below(y(p.a.end), y(p.b.end), y(p.c.end), y(p.d.end), y(p.e.end));
    }
    if are_above(
        y(p.a.start),
        y(p.b.start),
        y(p.c.start),
        y(p.d.start),
        y(p.e.start),
    ) {
        return are_above(y(p.a.end), y(p.b.end), y(p.c.end), y(p.d.end), y(p.e.end));
    }
    false
}

// Whether the axis z keeps the edge on one side of the face, at the start and at the end.
#[inline(always)]
fn z_keeps_apart(p: &FivePaths<'_>) -> bool
    ensures { IsTrue result → KeepsApart (starts_of p.now) (ends_of p.now) axis_z }
{
    if are_below(
        z(p.a.start),
        z(p.b.start),
        z(p.c.start),
        z(p.d.start),
        z(p.e.start),
    ) {
        return are_below(z(p.a.end), z(p.b.end), z(p.c.end), z(p.d.end), z(p.e.end));
    }
    if are_above(
        z(p.a.start),
        z(p.b.start),
        z(p.c.start),
        z(p.d.start),
        z(p.e.start),
    ) {
        return are_above(z(p.a.end), z(p.b.end), z(p.c.end), z(p.d.end), z(p.e.end));
    }
    false
}

/// Whether one of the three axes does.
#[inline(always)]
pub(crate) fn an_axis_keeps_apart(p: &FivePaths<'_>) -> bool
    ensures { IsTrue result → Any (KeepsApart (starts_of p.now) (ends_of p.now)) axes }
{
    if x_keeps_apart(p) {
        return true;
    }
    if y_keeps_apart(p) {
        return true;
    }
    z_keeps_apart(p)
}
