//! Boxes of edges that reach out by the skin.
ghost use Rattle.std.specs.Prelude.{◌≡◌, ◌≤◌, ◌≤ℤ◌, ◌+ℤ◌, ◌-ℤ◌, pos, unsigned_abs};
ghost use Rattle.std.specs.Int.{int_min, int_max};
ghost use Rattle.grid_base.specs.declared.TheConstants.{EXTENT_MAX, HALF_MAX};
ghost use Rattle.grid_base.specs.Triples.{IsWithin};
ghost use Rattle.neighbour_list.specs.Widened.{IsWidened};

use crate::near::{greater, lesser};
use grid_base::{Extent, HALF_MAX, Wide};

// The skin before the lesser of two numbers.
fn before(skin: u32, a: i128, b: i128) -> i128
    requires skin_fits { skin ≤ HALF_MAX }
    requires a_fits { unsigned_abs a ≤ HALF_MAX }
    requires b_fits { unsigned_abs b ≤ HALF_MAX }
    ensures value { result ≡ int_min a b -ℤ pos skin }
    ensures within { unsigned_abs result ≤ EXTENT_MAX }
    ensures under { result ≤ℤ a }
{
    lesser(a, b) - i128::from(skin)
}

// The skin after the greater.
fn after(skin: u32, a: i128, b: i128) -> i128
    requires skin_fits { skin ≤ HALF_MAX }
    requires a_fits { unsigned_abs a ≤ HALF_MAX }
    requires b_fits { unsigned_abs b ≤ HALF_MAX }
    ensures value { result ≡ int_max a b +ℤ pos skin }
    ensures within { unsigned_abs result ≤ EXTENT_MAX }
    ensures above { a ≤ℤ result }
{
    greater(a, b) + i128::from(skin)
}

/// The box of two positions, wider by the skin at each side.
pub(crate) fn widened(skin: u32, a: Wide, b: Wide) -> Extent
    requires skin_fits { skin ≤ HALF_MAX }
    requires a_fits { IsWithin HALF_MAX a }
    requires b_fits { IsWithin HALF_MAX b }
    ensures { IsWidened skin a b result }
{
    Extent {
        low: Wide {
            x: before(skin, a.x, b.x),
            y: before(skin, a.y, b.y),
            z: before(skin, a.z, b.z),
        },
        high: Wide {
            x: after(skin, a.x, b.x),
            y: after(skin, a.y, b.y),
            z: after(skin, a.z, b.z),
        },
    }
}
