ghost use Rattle.std.specs.Prelude.{◌≡◌, ◌↔◌, IsTrue, Some};
ghost use Rattle.grid_base.specs.Triples.{IsWithin, dot};
ghost use Rattle.grid_base.specs.Meeting.{AreWithin};
ghost use Rattle.grid_base.specs.Separation.{KeepsApart, TakesApart, BringsTogether};
ghost use Rattle.motion_test.specs.Heights.{AreOn, LieOn, LieWeaklyOn, heights_along};
ghost use Rattle.motion_test.specs.Small.{position_max, direction_max};

use crate::side::{Side, both_on, both_weakly_on, side_by};
use crate::small::height;
use grid_base::{DIRECTION_MAX, Positions, WIDE_MAX, Wide};

/// Whether the direction keeps the edge strictly on one side of the triangle, at the start and at
/// the end.
pub fn keeps_apart(n: Wide, s: &Positions, t: &Positions) -> bool
    requires n_fits { IsWithin DIRECTION_MAX n }
    requires s_fits { AreWithin WIDE_MAX s.now }
    requires t_fits { AreWithin WIDE_MAX t.now }
    ensures { IsTrue result ↔ KeepsApart s.now t.now n }
{
    keeps(n, s, t, false)
}

/// Whether the direction takes the edge to one side: weakly at the start, and strictly at the end.
pub fn takes_apart(n: Wide, s: &Positions, t: &Positions) -> bool
    requires n_fits { IsWithin DIRECTION_MAX n }
    requires s_fits { AreWithin WIDE_MAX s.now }
    requires t_fits { AreWithin WIDE_MAX t.now }
    ensures { IsTrue result ↔ TakesApart s.now t.now n }
{
    takes(n, s, t, false)
}

/// Whether the direction brings the edge to the triangle: strictly on one side at the start, and
/// weakly at the end.
pub fn brings_together(n: Wide, s: &Positions, t: &Positions) -> bool
    requires n_fits { IsWithin DIRECTION_MAX n }
    requires s_fits { AreWithin WIDE_MAX s.now }
    requires t_fits { AreWithin WIDE_MAX t.now }
    ensures { IsTrue result ↔ BringsTogether s.now t.now n }
{
    takes_apart(n, t, s)
}

// Whether the direction keeps the edge strictly on one side, by 64 bits where all is small.
pub(crate) fn keeps(n: Wide, s: &Positions, t: &Positions, small: bool) -> bool
    requires n_fits { IsWithin (direction_max small) n }
    requires s_fits { AreWithin (position_max small) s.now }
    requires t_fits { AreWithin (position_max small) t.now }
    ensures { IsTrue result ↔ KeepsApart s.now t.now n }
{
    match side_of(n, s, small) {
        Some(side) => is_on(side, n, t, small),
        None => false,
    }
}

// Whether the direction takes the edge to one side, by 64 bits where all is small.
pub(crate) fn takes(n: Wide, s: &Positions, t: &Positions, small: bool) -> bool
    requires n_fits { IsWithin (direction_max small) n }
    requires s_fits { AreWithin (position_max small) s.now }
    requires t_fits { AreWithin (position_max small) t.now }
    ensures { IsTrue result ↔ TakesApart s.now t.now n }
{
    match side_of(n, t, small) {
        Some(side) => is_weakly_on(side, n, s, small),
        None => false,
    }
}

// The side that the edge is strictly on. Most directions are given up at the first corner.
fn side_of(n: Wide, f: &Positions, small: bool) -> Option<Side>
    requires n_fits { IsWithin (direction_max small) n }
    requires f_fits { AreWithin (position_max small) f.now }
    ensures { (side : Side) → (result ≡ Some side) ↔ LieOn side (heights_along n f.now) }
{
    let a = height(n, f.a, small);
    let b = height(n, f.b, small);
    let c = height(n, f.c, small);
    let side = side_by(a, b, c)?;
    if rest_on(side, a, b, n, f, small) {
        Some(side)
    } else {
        None
    }
}

// Whether both edge ends are strictly on the side of all corners.
fn is_on(side: Side, n: Wide, f: &Positions, small: bool) -> bool
    requires n_fits { IsWithin (direction_max small) n }
    requires f_fits { AreWithin (position_max small) f.now }
    ensures { IsTrue result ↔ LieOn side (heights_along n f.now) }
{
    let a = height(n, f.a, small);
    let b = height(n, f.b, small);
    let c = height(n, f.c, small);
    if !both_on(side, a, b, c) {
        return false;
    }
    rest_on(side, a, b, n, f, small)
}

// Whether two heights are strictly on the side of those of the last two corners.
fn rest_on(side: Side, a: i128, b: i128, n: Wide, f: &Positions, small: bool) -> bool
    requires n_fits { IsWithin (direction_max small) n }
    requires f_fits { AreWithin (position_max small) f.now }
    ensures { IsTrue result ↔
        (AreOn side a b (dot n f.now.d) × AreOn side a b (dot n f.now.e)) }
{
    let d = height(n, f.d, small);
    if !both_on(side, a, b, d) {
        return false;
    }
    let e = height(n, f.e, small);
    both_on(side, a, b, e)
}

// Whether both edge ends are on the side of all corners, or level with them.
fn is_weakly_on(side: Side, n: Wide, f: &Positions, small: bool) -> bool
    requires n_fits { IsWithin (direction_max small) n }
    requires f_fits { AreWithin (position_max small) f.now }
    ensures { IsTrue result ↔ LieWeaklyOn side (heights_along n f.now) }
{
    let a = height(n, f.a, small);
    let b = height(n, f.b, small);
    let c = height(n, f.c, small);
    if !both_weakly_on(side, a, b, c) {
        return false;
    }
    let d = height(n, f.d, small);
    if !both_weakly_on(side, a, b, d) {
        return false;
    }
    let e = height(n, f.e, small);
    both_weakly_on(side, a, b, e)
}
