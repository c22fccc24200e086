ghost use Rattle.std.specs.Prelude.{◌≡◌};
ghost use Rattle.grid_base.specs.declared.TheConstants.{BOX, SHIFT_MAX};
ghost use Rattle.grid_base.specs.Components.{FitWithin};
ghost use Rattle.grid_base.specs.Points.{point_at, shift_by};

use grid_base::{BOX, Point, SHIFT_MAX, Shift};

/// The point with these three coordinates, which are in the box.
pub fn point_with(x: i32, y: i32, z: i32) -> Point
    requires { FitWithin BOX x y z }
    ensures { result ≡ point_at (record { x = x; y = y; z = z }) }
{
    Point { x, y, z }
}

/// The shift with these three components, which are within their limit.
pub fn shift_with(x: i32, y: i32, z: i32) -> Shift
    requires { FitWithin SHIFT_MAX x y z }
    ensures { result ≡ shift_by (record { x = x; y = y; z = z }) }
{
    Shift { x, y, z }
}
