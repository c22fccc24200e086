//! Whether an edge and a triangle meet.
#![tactic(auto)]

mod axes;
mod lines;

ghost use Rattle.std.specs.Prelude.{◌≡◌, ◌↔◌, IsTrue, ◌<ℤ◌, pos};
ghost use Rattle.grid_base.specs.Triples.{Triple, IsWithin, orientation};
ghost use Rattle.grid_base.specs.Meeting.{Meets};
ghost use Rattle.grid_meets.specs.Segments.{MeetsSide};

use axes::axis_keeps_apart;
use grid_base::narrow::{normal, product, span};
use grid_base::{HALF_MAX, Wide, orient};
use lines::segments_meet;

/// Whether the edge from `a` to `b` and the triangle with the corners `c`, `d` and `e` share a
/// position, ends, sides and corners counted. Exact. The triangle may have no area, and the edge no
/// length. Sizes are in half units, up to `HALF_MAX`.
pub fn meets(a: Wide, b: Wide, c: Wide, d: Wide, e: Wide) -> bool
    requires a_fits { IsWithin HALF_MAX a }
    requires b_fits { IsWithin HALF_MAX b }
    requires c_fits { IsWithin HALF_MAX c }
    requires d_fits { IsWithin HALF_MAX d }
    requires e_fits { IsWithin HALF_MAX e }
    ensures { IsTrue result ↔ Meets a b c d e }
{
    if axis_keeps_apart(a, b, c, d, e) {
        return false;
    }
    meets_by_volumes(a, b, c, d, e)
}

// The same, by the signed volumes that the edge's ends and the triangle span.
fn meets_by_volumes(a: Wide, b: Wide, c: Wide, d: Wide, e: Wide) -> bool
    requires a_fits { IsWithin HALF_MAX a }
    requires b_fits { IsWithin HALF_MAX b }
    requires c_fits { IsWithin HALF_MAX c }
    requires d_fits { IsWithin HALF_MAX d }
    requires e_fits { IsWithin HALF_MAX e }
    ensures { IsTrue result ↔ Meets a b c d e }
{
    let n = normal(span(d, c), span(e, c));
    let over_a = product(n, span(a, c));
    let over_b = product(n, span(b, c));
    if over_a < over_b {
        return crosses_downward(b, a, c, d, e, over_b, over_a);
    }
    if over_b < over_a {
        return crosses_downward(a, b, c, d, e, over_a, over_b);
    }
    if over_a < 0 {
        return false;
    }
    if over_a > 0 {
        return false;
    }
    if side_meets(a, b, c, d, e) {
        return true;
    }
    starts_inside(a, c, d, e)
}

// The same of an edge that goes down, from `over_a` to `over_b`.
fn crosses_downward(a: Wide, b: Wide, c: Wide, d: Wide, e: Wide, over_a: i128, over_b: i128) -> bool
    requires a_fits { IsWithin HALF_MAX a }
    requires b_fits { IsWithin HALF_MAX b }
    requires c_fits { IsWithin HALF_MAX c }
    requires d_fits { IsWithin HALF_MAX d }
    requires e_fits { IsWithin HALF_MAX e }
    requires from { over_a ≡ orientation c d e a }
    requires to { over_b ≡ orientation c d e b }
    requires apart { orientation c d e b <ℤ orientation c d e a }
    ensures { IsTrue result ↔ Meets a b c d e }
{
    if over_a < 0 {
        return false;
    }
    if over_b > 0 {
        return false;
    }
    if orient(a, b, d, e) > 0 {
        return false;
    }
    if orient(a, b, e, c) > 0 {
        return false;
    }
    orient(a, b, c, d) <= 0
}

// Whether the edge meets a side of the triangle.
fn side_meets(a: Wide, b: Wide, c: Wide, d: Wide, e: Wide) -> bool
    requires a_fits { IsWithin HALF_MAX a }
    requires b_fits { IsWithin HALF_MAX b }
    requires c_fits { IsWithin HALF_MAX c }
    requires d_fits { IsWithin HALF_MAX d }
    requires e_fits { IsWithin HALF_MAX e }
    ensures { IsTrue result ↔ MeetsSide a b c d e }
{
    if segments_meet(a, b, c, d) {
        return true;
    }
    if segments_meet(a, b, d, e) {
        return true;
    }
    segments_meet(a, b, e, c)
}

// Whether a position in the triangle's plane lies in the triangle, where the triangle has an area.
fn starts_inside(a: Wide, c: Wide, d: Wide, e: Wide) -> bool
    requires a_fits { IsWithin HALF_MAX a }
    requires c_fits { IsWithin HALF_MAX c }
    requires d_fits { IsWithin HALF_MAX d }
    requires e_fits { IsWithin HALF_MAX e }
    requires flat { orientation c d e a ≡ pos 0 }
    ensures inside { IsTrue result → (b : Triple) → Meets a b c d e }
    ensures side { (b : Triple) → Meets a b c d e → (MeetsSide a b c d e → ⊥) → IsTrue result }
{
    let f = span(d, c);
    let g = span(e, c);
    let q = span(a, c);
    let n = normal(f, g);
    let size = product(n, n);
    if size <= 0 {
        return false;
    }
    let k = product(n, normal(q, g));
    if k < 0 {
        return false;
    }
    let l = product(n, normal(f, q));
    if l < 0 {
        return false;
    }
    k + l <= size
}
