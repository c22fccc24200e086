ghost use Rattle.std.specs.Prelude.{◌≡◌, ◌↔◌, ◌≤◌, ◌*ℤ◌, pos, unsigned_abs, IfSome, IsSome};
ghost use Rattle.grid_base.specs.declared.TheConstants.{BOX, HALF_MAX, SHIFT_MAX};
ghost use Rattle.grid_base.specs.Components.{FitWithin};

use crate::{BOX, SHIFT_MAX, Wide};

/// A point of the grid, inside the box.
#[derive(Clone, Copy, Debug, PartialEq, Eq)]
pub struct Point {
    pub x: i32,
    pub y: i32,
    pub z: i32,
    ghost in_box: { FitWithin BOX x y z },
}

impl Point {
    ghost use Rattle.grid_base.specs.Points.{position_of};
    ghost use Rattle.grid_base.specs.Triples.{IsWithin, times};

    /// The point at these coordinates, in grid units; None where a size is above `BOX`.
    pub fn new(x: i32, y: i32, z: i32) -> Option<Point>
        ensures made { IfSome result (λ p. (p.x ≡ x) × (p.y ≡ y) × (p.z ≡ z)) }
        ensures some { IsSome result ↔ FitWithin BOX x y z }
    {
        if x.unsigned_abs() <= BOX && y.unsigned_abs() <= BOX && z.unsigned_abs() <= BOX {
            Some(Point { x, y, z })
        } else {
            None
        }
    }

    /// Where the point stands.
    pub fn wide(self) -> Wide
        ensures value { result ≡ position_of self }
        ensures within { IsWithin HALF_MAX result }
    {
        Wide {
            x: i128::from(self.x),
            y: i128::from(self.y),
            z: i128::from(self.z),
        }
    }

    /// Where the point stands, in half units.
    pub fn doubled(self) -> Wide
        ensures value { result ≡ times 2 (position_of self) }
        ensures within { IsWithin HALF_MAX result }
    {
        Wide {
            x: twice(self.x),
            y: twice(self.y),
            z: twice(self.z),
        }
    }
}

// Twice a coordinate.
fn twice(a: i32) -> i128
    requires { unsigned_abs a ≤ BOX }
    ensures value { result ≡ pos 2 *ℤ a }
    ensures within { unsigned_abs result ≤ HALF_MAX }
{
    i128::from(2 * a)
}

/// A shift of a point, in grid units.
#[derive(Clone, Copy, Debug, PartialEq, Eq)]
pub struct Shift {
    pub x: i32,
    pub y: i32,
    pub z: i32,
    ghost in_range: { FitWithin SHIFT_MAX x y z },
}

impl Shift {
    /// The shift with these components, in grid units; None where a size is above `SHIFT_MAX`.
    pub fn new(x: i32, y: i32, z: i32) -> Option<Shift>
        ensures made { IfSome result (λ s. (s.x ≡ x) × (s.y ≡ y) × (s.z ≡ z)) }
        ensures some { IsSome result ↔ FitWithin SHIFT_MAX x y z }
    {
        if x.unsigned_abs() <= SHIFT_MAX
            && y.unsigned_abs() <= SHIFT_MAX
            && z.unsigned_abs() <= SHIFT_MAX
        {
            Some(Shift { x, y, z })
        } else {
            None
        }
    }
}

/// No shift at all.
pub const NO_SHIFT: Shift = Shift { x: 0, y: 0, z: 0 };
