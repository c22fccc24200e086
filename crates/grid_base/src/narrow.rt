//! Differences and products of positions before a motion is halved, in 64 bits: what is within
//! `HALF_MAX` has differences and cross products that 64 bits hold, and products of these that 128
//! bits hold.

ghost use Rattle.std.specs.Prelude.{◌≡◌, ◌≤◌, ◌+ℤ◌, ◌-ℤ◌, ◌*◌, ◌*ℤ◌, unsigned_abs};
ghost use Rattle.grid_base.specs.Triples.{IsWithin, minus, cross, dot, orientation};

use crate::HALF_MAX;
use crate::vector::Wide;

/// The greatest size of a difference of two positions.
pub const SPAN_MAX: u64 = 2 * (HALF_MAX as u64);
/// The greatest size of a cross product of two such differences.
pub const NORMAL_MAX: u64 = 2 * (SPAN_MAX * SPAN_MAX);
/// The greatest size of a product of two components of these.
const TERM_MAX: u128 = (NORMAL_MAX as u128) * (NORMAL_MAX as u128);
/// The greatest size of a dot product of these.
pub const TOTAL_MAX: u128 = 3 * TERM_MAX;

/// The difference of two positions.
pub fn span(a: Wide, b: Wide) -> Wide
    requires a_fits { IsWithin HALF_MAX a }
    requires b_fits { IsWithin HALF_MAX b }
    ensures value { result ≡ minus a b }
    ensures within { IsWithin SPAN_MAX result }
{
    Wide {
        x: difference(a.x, b.x),
        y: difference(a.y, b.y),
        z: difference(a.z, b.z),
    }
}

/// The cross product of two differences of positions.
pub fn normal(a: Wide, b: Wide) -> Wide
    requires a_fits { IsWithin SPAN_MAX a }
    requires b_fits { IsWithin SPAN_MAX b }
    ensures value { result ≡ cross a b }
    ensures within { IsWithin NORMAL_MAX result }
{
    Wide {
        x: area(a.y, a.z, b.y, b.z),
        y: area(a.z, a.x, b.z, b.x),
        z: area(a.x, a.y, b.x, b.y),
    }
}

/// The dot product of positions, of differences of them or of cross products of these.
pub fn product(a: Wide, b: Wide) -> i128
    requires a_fits { IsWithin NORMAL_MAX a }
    requires b_fits { IsWithin NORMAL_MAX b }
    ensures value { result ≡ dot a b }
    ensures within { unsigned_abs result ≤ TOTAL_MAX }
{
    sum(term(a.x, b.x), term(a.y, b.y), term(a.z, b.z))
}

/// The determinant of `b - a`, `c - a` and `d - a`.
pub fn orient(a: Wide, b: Wide, c: Wide, d: Wide) -> i128
    requires first { IsWithin HALF_MAX a }
    requires second { IsWithin HALF_MAX b }
    requires third { IsWithin HALF_MAX c }
    requires fourth { IsWithin HALF_MAX d }
    ensures { result ≡ orientation a b c d }
{
    product(normal(span(b, a), span(c, a)), span(d, a))
}

// The difference of two positions' components.
fn difference(a: i128, b: i128) -> i128
    requires a_fits { unsigned_abs a ≤ HALF_MAX }
    requires b_fits { unsigned_abs b ≤ HALF_MAX }
    ensures value { result ≡ a -ℤ b }
    ensures within { unsigned_abs result ≤ SPAN_MAX }
{
    i128::from((a as i64) - (b as i64))
}

// The signed area that the plane vectors (a, b) and (c, d) span.
fn area(a: i128, b: i128, c: i128, d: i128) -> i128
    requires a_fits { unsigned_abs a ≤ SPAN_MAX }
    requires b_fits { unsigned_abs b ≤ SPAN_MAX }
    requires c_fits { unsigned_abs c ≤ SPAN_MAX }
    requires d_fits { unsigned_abs d ≤ SPAN_MAX }
    ensures value { result ≡ a *ℤ d -ℤ b *ℤ c }
    ensures within { unsigned_abs result ≤ NORMAL_MAX }
{
    i128::from(times(a, d) - times(b, c))
}

// The product of two components of differences.
fn times(a: i128, b: i128) -> i64
    requires a_fits { unsigned_abs a ≤ SPAN_MAX }
    requires b_fits { unsigned_abs b ≤ SPAN_MAX }
    ensures value { result ≡ a *ℤ b }
    ensures within { unsigned_abs result ≤ SPAN_MAX * SPAN_MAX }
{
    (a as i64) * (b as i64)
}

// The product of two components, each of 64 bits, which takes 128.
fn term(a: i128, b: i128) -> i128
    requires a_fits { unsigned_abs a ≤ NORMAL_MAX }
    requires b_fits { unsigned_abs b ≤ NORMAL_MAX }
    ensures value { result ≡ a *ℤ b }
    ensures within { unsigned_abs result ≤ TERM_MAX }
{
    i128::from(a as i64) * i128::from(b as i64)
}

// The sum of three such products.
fn sum(a: i128, b: i128, c: i128) -> i128
    requires a_fits { unsigned_abs a ≤ TERM_MAX }
    requires b_fits { unsigned_abs b ≤ TERM_MAX }
    requires c_fits { unsigned_abs c ≤ TERM_MAX }
    ensures value { result ≡ a +ℤ b +ℤ c }
    ensures within { unsigned_abs result ≤ TOTAL_MAX }
{
    a + b + c
}
