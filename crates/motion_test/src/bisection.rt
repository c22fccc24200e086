ghost use Rattle.std.specs.Prelude.{◌≡◌, ◌↔◌, ◌≤◌, ◌⊎◌, IsTrue, unsigned_abs, ◌+ℤ◌, ◌*ℤ◌, pos};
ghost use Rattle.grid_base.specs.Triples.{IsWithin, times, plus};
ghost use Rattle.grid_base.specs.Meeting.{AreWithin, MeetAt};
ghost use Rattle.grid_base.specs.Separation.{AreSeparated, Opens, double, middle};
ghost use Rattle.motion_test.specs.Small.{position_max_at};

use crate::some_direction::{direction_keeps_apart, direction_takes_apart};
use grid_base::{DEPTH_MAX, HALF_MAX, Positions, WIDE_MAX, Wide};
use grid_meets::meets;

// Whether a position is as small as before the first halving.
fn is_small(a: Wide) -> bool
    ensures { IsTrue result → IsWithin HALF_MAX a }
{
    let most = u128::from(HALF_MAX);
    a.x.unsigned_abs() <= most && a.y.unsigned_abs() <= most && a.z.unsigned_abs() <= most
}

// Whether all five positions are.
fn are_small(f: &Positions) -> bool
    ensures { IsTrue result → AreWithin HALF_MAX f.now }
{
    if !is_small(f.a) || !is_small(f.b) {
        return false;
    }
    is_small(f.c) && is_small(f.d) && is_small(f.e)
}

// Whether the start, the middle and the end of an interval are.
fn are_three_small(start: &Positions, middle: &Positions, end: &Positions) -> bool
    ensures start { IsTrue result → AreWithin HALF_MAX start.now }
    ensures middle { IsTrue result → AreWithin HALF_MAX middle.now }
    ensures end { IsTrue result → AreWithin HALF_MAX end.now }
{
    are_small(start) && are_small(middle) && are_small(end)
}

// Whether the pair is seen to meet where it stands: its positions are small, and it does.
fn is_seen_to_meet(f: &Positions) -> bool
    ensures { IsTrue result → MeetAt f.now }
{
    are_small(f) && meets(f.a, f.b, f.c, f.d, f.e)
}

// Whether the pair is seen to meet in the middle of an interval, or at the end of one that is the whole.
fn is_met(t: &Positions, middle: &Positions, whole: bool) -> bool
    ensures { IsTrue result → MeetAt t.now ⊎ MeetAt middle.now }
{
    if whole && is_seen_to_meet(t) {
        return true;
    }
    is_seen_to_meet(middle)
}

// Whether the pair is separated to the depth. Each halving doubles the sizes, and leaves one depth
// less. Before the first halving all is small, and after it most pairs still are. What is seen to meet at the
// end of the whole or in a middle is not separated, so its halves need not be looked at.
pub(crate) fn separated_at(
    s: &Positions,
    t: &Positions,
    depth: u8,
    small: bool,
    whole: bool,
) -> bool
    requires depth_fits { depth ≤ DEPTH_MAX }
    requires s_fits { AreWithin (position_max_at depth small) s.now }
    requires t_fits { AreWithin (position_max_at depth small) t.now }
    ensures { IsTrue result ↔ AreSeparated depth s.now t.now }
{
    if direction_keeps_apart(s, t, small) {
        return true;
    }
    if depth == 0 {
        return false;
    }
    let m = middle(s, t);
    if is_met(t, &m, whole) {
        return false;
    }
    let first = double(s);
    let last = double(t);
    let halves_small = are_three_small(&first, &m, &last);
    if !separated_at(&first, &m, depth - 1, halves_small, false) {
        return false;
    }
    separated_at(&m, &last, depth - 1, halves_small, false)
}

// Whether the pair opens to the depth, likewise.
pub(crate) fn opens_at(s: &Positions, t: &Positions, depth: u8, small: bool) -> bool
    requires depth_fits { depth ≤ DEPTH_MAX }
    requires s_fits { AreWithin (position_max_at depth small) s.now }
    requires t_fits { AreWithin (position_max_at depth small) t.now }
    ensures { IsTrue result ↔ Opens depth s.now t.now }
{
    if direction_takes_apart(s, t, small) {
        return true;
    }
    if depth == 0 {
        return false;
    }
    let halfway = middle(s, t);
    if !opens_at(&double(s), &halfway, depth - 1, false) {
        return false;
    }
    separated_at(&halfway, &double(t), depth - 1, false, true)
}

/// The middle of an interval, double: the end of its first half, and the start of its second.
pub fn middle(s: &Positions, t: &Positions) -> Positions
    requires s_fits { AreWithin WIDE_MAX s.now }
    requires t_fits { AreWithin WIDE_MAX t.now }
    ensures { result ≡ middle s.now t.now }
{
    Positions {
        a: sum(s.a, t.a),
        b: sum(s.b, t.b),
        c: sum(s.c, t.c),
        d: sum(s.d, t.d),
        e: sum(s.e, t.e),
    }
}

/// The outer positions of a half, double, as its middle is.
pub fn double(s: &Positions) -> Positions
    requires { AreWithin WIDE_MAX s.now }
    ensures { result ≡ double s.now }
{
    Positions {
        a: twice(s.a),
        b: twice(s.b),
        c: twice(s.c),
        d: twice(s.d),
        e: twice(s.e),
    }
}

// The sum of two positions.
fn sum(a: Wide, b: Wide) -> Wide
    requires a_fits { IsWithin WIDE_MAX a }
    requires b_fits { IsWithin WIDE_MAX b }
    ensures { result ≡ plus a b }
{
    Wide {
        x: total(a.x, b.x),
        y: total(a.y, b.y),
        z: total(a.z, b.z),
    }
}

// The sum of two coordinates.
fn total(a: i128, b: i128) -> i128
    requires a_fits { unsigned_abs a ≤ WIDE_MAX }
    requires b_fits { unsigned_abs b ≤ WIDE_MAX }
    ensures { result ≡ a +ℤ b }
{
    a + b
}

// The position, double.
fn twice(a: Wide) -> Wide
    requires { IsWithin WIDE_MAX a }
    ensures { result ≡ times 2 a }
{
    Wide {
        x: two_of(a.x),
        y: two_of(a.y),
        z: two_of(a.z),
    }
}

// The coordinate, double.
fn two_of(a: i128) -> i128
    requires { unsigned_abs a ≤ WIDE_MAX }
    ensures { result ≡ pos 2 *ℤ a }
{
    a + a
}
