ghost use Rattle.std.specs.Prelude.{◌≡◌, ◌≤◌, ◌-ℤ◌, ◌+ℤ◌, ◌*ℤ◌, unsigned_abs};
ghost use Rattle.grid_base.specs.Triples.{IsWithin, minus, cross, dot};

use crate::{DIFFERENCE_MAX, DIRECTION_MAX, PRODUCT_MAX, WIDE_MAX};

/// Three whole numbers.
// It has no ghost field: definitions speak of it as of three whole numbers of any size.
#[derive(Clone, Copy, Debug, PartialEq, Eq)]
pub struct Wide {
    pub x: i128,
    pub y: i128,
    pub z: i128,
}

impl Wide {
    /// The difference, component by component.
    pub fn minus(self, o: Wide) -> Wide
        requires left { IsWithin WIDE_MAX self }
        requires right { IsWithin WIDE_MAX o }
        ensures value { result ≡ minus self o }
        ensures within { IsWithin DIFFERENCE_MAX result }
    {
        Wide {
            x: difference(self.x, o.x),
            y: difference(self.y, o.y),
            z: difference(self.z, o.z),
        }
    }

    /// The cross product.
    pub fn cross(self, o: Wide) -> Wide
        requires left { IsWithin DIFFERENCE_MAX self }
        requires right { IsWithin DIFFERENCE_MAX o }
        ensures value { result ≡ cross self o }
        ensures within { IsWithin DIRECTION_MAX result }
    {
        Wide {
            x: area(self.y, self.z, o.y, o.z),
            y: area(self.z, self.x, o.z, o.x),
            z: area(self.x, self.y, o.x, o.y),
        }
    }

    /// The dot product.
    pub fn dot(self, o: Wide) -> i128
        requires left { IsWithin DIRECTION_MAX self }
        requires right { IsWithin WIDE_MAX o }
        ensures { result ≡ dot self o }
    {
        sum(
            product(self.x, o.x),
            product(self.y, o.y),
            product(self.z, o.z),
        )
    }
}

// The difference of two positions' components.
fn difference(a: i128, b: i128) -> i128
    requires a_fits { unsigned_abs a ≤ WIDE_MAX }
    requires b_fits { unsigned_abs b ≤ WIDE_MAX }
    ensures value { result ≡ a -ℤ b }
    ensures within { unsigned_abs result ≤ DIFFERENCE_MAX }
{
    a - b
}

// The signed area that the plane vectors (a, b) and (c, d) span.
fn area(a: i128, b: i128, c: i128, d: i128) -> i128
    requires a_fits { unsigned_abs a ≤ DIFFERENCE_MAX }
    requires b_fits { unsigned_abs b ≤ DIFFERENCE_MAX }
    requires c_fits { unsigned_abs c ≤ DIFFERENCE_MAX }
    requires d_fits { unsigned_abs d ≤ DIFFERENCE_MAX }
    ensures value { result ≡ a *ℤ d -ℤ b *ℤ c }
    ensures within { unsigned_abs result ≤ DIRECTION_MAX }
{
    product(a, d) - product(b, c)
}

// The product of a component of a direction or a difference, and one of a difference or a position.
fn product(a: i128, b: i128) -> i128
    requires a_fits { unsigned_abs a ≤ DIRECTION_MAX }
    requires b_fits { unsigned_abs b ≤ DIFFERENCE_MAX }
    ensures value { result ≡ a *ℤ b }
    ensures within { unsigned_abs result ≤ PRODUCT_MAX }
{
    a * b
}

// The sum of three such products.
fn sum(a: i128, b: i128, c: i128) -> i128
    requires a_fits { unsigned_abs a ≤ PRODUCT_MAX }
    requires b_fits { unsigned_abs b ≤ PRODUCT_MAX }
    requires c_fits { unsigned_abs c ≤ PRODUCT_MAX }
    ensures { result ≡ a +ℤ b +ℤ c }
{
    a + b + c
}
