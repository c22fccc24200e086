ghost use Rattle.std.specs.Prelude.{◌≡◌, ◌↔◌, IsTrue, Some};
ghost use Rattle.motion_test.specs.Heights.{axis_x, axis_y, axis_z, heights_along};
ghost use Rattle.motion_test.specs.Heights.{LieOn, LieWeaklyOn, KeepApart, TakeApart};

use crate::side::{Side, both_on, both_weakly_on, side_by};
use grid_base::Positions;

// How far an edge's ends `a` and `b` and a triangle's corners `c`, `d` and `e` lie along a
// direction.
#[derive(Clone, Copy)]
pub(crate) struct Heights {
    a: i128,
    b: i128,
    c: i128,
    d: i128,
    e: i128,
}

// The heights along the axis x.
#[inline(always)]
pub(crate) fn along_x(f: &Positions) -> Heights
    ensures { result ≡ heights_along axis_x f.now }
{
    Heights {
        a: f.a.x,
        b: f.b.x,
        c: f.c.x,
        d: f.d.x,
        e: f.e.x,
    }
}

// The heights along the axis y.
#[inline(always)]
pub(crate) fn along_y(f: &Positions) -> Heights
    ensures { result ≡ heights_along axis_y f.now }
{
    Heights {
        a: f.a.y,
        b: f.b.y,
        c: f.c.y,
        d: f.d.y,
        e: f.e.y,
    }
}

// The heights along the axis z.
#[inline(always)]
pub(crate) fn along_z(f: &Positions) -> Heights
    ensures { result ≡ heights_along axis_z f.now }
{
    Heights {
        a: f.a.z,
        b: f.b.z,
        c: f.c.z,
        d: f.d.z,
        e: f.e.z,
    }
}

// Whether the edge is strictly on one side, at the start and at the end.
#[inline(always)]
pub(crate) fn heights_keep_apart(s: Heights, t: Heights) -> bool
    ensures { IsTrue result ↔ KeepApart s t }
{
    match side_along(s) {
        Some(side) => lie_on(side, t),
        None => false,
    }
}

// Whether the edge is weakly on one side at the start, and strictly there at the end.
pub(crate) fn heights_take_apart(s: Heights, t: Heights) -> bool
    ensures { IsTrue result ↔ TakeApart s t }
{
    match side_along(t) {
        Some(side) => lie_weakly_on(side, s),
        None => false,
    }
}

// The side of all corners that both edge ends are strictly on, if they are on one.
#[inline(always)]
fn side_along(h: Heights) -> Option<Side>
    ensures { (side : Side) → (result ≡ Some side) ↔ LieOn side h }
{
    let side = side_by(h.a, h.b, h.c)?;
    if lie_on(side, h) { Some(side) } else { None }
}

// Whether both edge ends are strictly on the side of all corners.
#[inline(always)]
fn lie_on(side: Side, h: Heights) -> bool
    ensures { IsTrue result ↔ LieOn side h }
{
    if !both_on(side, h.a, h.b, h.c) {
        return false;
    }
    if !both_on(side, h.a, h.b, h.d) {
        return false;
    }
    both_on(side, h.a, h.b, h.e)
}

// Whether both edge ends are on the side of all corners, or level with them.
fn lie_weakly_on(side: Side, h: Heights) -> bool
    ensures { IsTrue result ↔ LieWeaklyOn side h }
{
    if !both_weakly_on(side, h.a, h.b, h.c) {
        return false;
    }
    if !both_weakly_on(side, h.a, h.b, h.d) {
        return false;
    }
    both_weakly_on(side, h.a, h.b, h.e)
}
