//! Whether an edge and a face begin near each other.
ghost use Rattle.std.specs.Prelude.{◌≡◌, ◌≤◌, ◌+ℤ◌, pos, int_le, unsigned_abs};
ghost use Rattle.std.specs.Int.{int_min, int_max};
ghost use Rattle.grid_base.specs.declared.TheConstants.{HALF_MAX};
ghost use Rattle.pair_paths.specs.Pairing.{starts};
ghost use Rattle.neighbour_list.specs.Near.{near_along, is_near};

use grid_base::HALF_MAX;
use pair_paths::{MovingEdge, MovingFace};

// The lesser of two numbers.
pub(crate) fn lesser(a: i128, b: i128) -> i128
    requires a_fits { unsigned_abs a ≤ HALF_MAX }
    requires b_fits { unsigned_abs b ≤ HALF_MAX }
    ensures value { result ≡ int_min a b }
    ensures within { unsigned_abs result ≤ HALF_MAX }
{
    a.min(b)
}

// The greater of two numbers.
pub(crate) fn greater(a: i128, b: i128) -> i128
    requires a_fits { unsigned_abs a ≤ HALF_MAX }
    requires b_fits { unsigned_abs b ≤ HALF_MAX }
    ensures value { result ≡ int_max a b }
    ensures within { unsigned_abs result ≤ HALF_MAX }
{
    a.max(b)
}

// Whether the one number is at most the skin above the other.
fn is_reached(skin: u32, low: i128, high: i128) -> bool
    requires { unsigned_abs high ≤ HALF_MAX }
    ensures { result ≡ int_le low (high +ℤ pos skin) }
{
    low <= high + i128::from(skin)
}

// Whether two numbers and three numbers have a gap of at most the skin.
fn near_along(skin: u32, a: i128, b: i128, c: i128, d: i128, e: i128) -> bool
    requires a_fits { unsigned_abs a ≤ HALF_MAX }
    requires b_fits { unsigned_abs b ≤ HALF_MAX }
    requires c_fits { unsigned_abs c ≤ HALF_MAX }
    requires d_fits { unsigned_abs d ≤ HALF_MAX }
    requires e_fits { unsigned_abs e ≤ HALF_MAX }
    ensures { result ≡ near_along skin a b c d e }
{
    let less = lesser(d, e);
    let least = lesser(c, less);
    let last = greater(a, b);
    if !is_reached(skin, least, last) {
        return false;
    }
    let first = lesser(a, b);
    let more = greater(d, e);
    let most = greater(c, more);
    is_reached(skin, first, most)
}

/// Whether where they begin the box of the edge and the box of the face have a gap of at most the skin along each axis.
pub(crate) fn begin_near(skin: u32, e: &MovingEdge, f: &MovingFace) -> bool
    ensures { result ≡ is_near skin (starts e.now f.now) }
{
    let a = e.first.start.wide();
    let b = e.second.start.wide();
    let c = f.c.start.wide();
    let d = f.d.start.wide();
    let k = f.e.start.wide();
    if !near_along(skin, a.x, b.x, c.x, d.x, k.x) {
        return false;
    }
    if !near_along(skin, a.y, b.y, c.y, d.y, k.y) {
        return false;
    }
    near_along(skin, a.z, b.z, c.z, d.z, k.z)
}
