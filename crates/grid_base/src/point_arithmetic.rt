ghost use Rattle.std.specs.Prelude.{◌≡◌, ◌↔◌, ◌≤◌, ◌+ℤ◌, unsigned_abs, IfSome, IsSome};
ghost use Rattle.grid_base.specs.Components.{floor_half, toward_zero};
ghost use Rattle.grid_base.specs.Triples.{IsWithin, floor_mid_of, halved_of};
ghost use Rattle.grid_base.specs.Points.{position_of, displacement_of, position_after};

use crate::{BOX, HALVINGS_MAX, Point, SHIFT_MAX, Shift};

/// The point moved by the shift; None where it leaves the box.
pub fn moved(p: Point, s: Shift) -> Option<Point>
    ensures made { IfSome result (λ r. position_of r ≡ position_after p s) }
    ensures some { IsSome result ↔ IsWithin BOX (position_after p s) }
{
    Point::new(shifted(p.x, s.x), shifted(p.y, s.y), shifted(p.z, s.z))
}

// The coordinate moved by a component.
fn shifted(a: i32, by: i32) -> i32
    requires a_fits { unsigned_abs a ≤ BOX }
    requires by_fits { unsigned_abs by ≤ SHIFT_MAX }
    ensures { result ≡ a +ℤ by }
{
    a + by
}

/// The midpoint, each component rounded down.
pub fn floor_mid(a: Point, b: Point) -> Point
    ensures { position_of result ≡ floor_mid_of (position_of a) (position_of b) }
{
    Point {
        x: middle(a.x, b.x),
        y: middle(a.y, b.y),
        z: middle(a.z, b.z),
    }
}

// The middle of two coordinates, rounded down.
fn middle(a: i32, b: i32) -> i32
    requires a_fits { unsigned_abs a ≤ BOX }
    requires b_fits { unsigned_abs b ≤ BOX }
    ensures value { result ≡ floor_half (a +ℤ b) }
    ensures within { unsigned_abs result ≤ BOX }
{
    (a + b).div_euclid(2)
}

/// The shift divided by 2^m, each component rounded toward zero.
pub fn halved(s: Shift, m: u8) -> Shift
    requires { m ≤ HALVINGS_MAX }
    ensures { displacement_of result ≡ halved_of m (displacement_of s) }
{
    Shift {
        x: quotient(s.x, m),
        y: quotient(s.y, m),
        z: quotient(s.z, m),
    }
}

// The component divided by 2^m, rounded toward zero.
fn quotient(a: i32, m: u8) -> i32
    requires a_fits { unsigned_abs a ≤ SHIFT_MAX }
    requires m_fits { m ≤ HALVINGS_MAX }
    ensures value { result ≡ toward_zero a m }
    ensures within { unsigned_abs result ≤ SHIFT_MAX }
{
    a / (1 << m)
}
