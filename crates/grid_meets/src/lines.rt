ghost use Rattle.std.specs.Prelude.{◌≡◌, ◌↔◌, ◌<ℤ◌, pos, IsTrue};
ghost use Rattle.grid_base.specs.Triples.{IsWithin, minus, cross, dot};
ghost use Rattle.grid_base.specs.Meeting.{Meets};
ghost use Rattle.grid_meets.specs.Segments.{HasNoLength};

use grid_base::narrow::{normal, product, span};
use grid_base::{HALF_MAX, Wide};

// Whether two segments of parallel directions meet, the first of some length.
fn lines_meet(a: Wide, b: Wide, c: Wide, d: Wide) -> bool
    requires a_fits { IsWithin HALF_MAX a }
    requires b_fits { IsWithin HALF_MAX b }
    requires c_fits { IsWithin HALF_MAX c }
    requires d_fits { IsWithin HALF_MAX d }
    requires parallel { HasNoLength (cross (minus b a) (minus d c)) }
    requires long { pos 0 <ℤ dot (minus b a) (minus b a) }
    ensures { IsTrue result ↔ Meets a b c d d }
{
    let u = span(b, a);
    let w = span(c, a);
    let p = normal(u, w);
    if product(p, p) > 0 {
        return false;
    }
    let size = product(u, u);
    let k = product(u, w);
    let l = product(u, span(d, a));
    if k < 0 {
        return l >= 0;
    }
    if k <= size {
        return true;
    }
    l <= size
}

// Whether two segments in one plane meet, whose lines cross.
fn lines_cross(a: Wide, b: Wide, c: Wide, d: Wide) -> bool
    requires a_fits { IsWithin HALF_MAX a }
    requires b_fits { IsWithin HALF_MAX b }
    requires c_fits { IsWithin HALF_MAX c }
    requires d_fits { IsWithin HALF_MAX d }
    requires flat { dot (cross (minus b a) (minus d c)) (minus c a) ≡ pos 0 }
    requires some { pos 0 <ℤ dot (cross (minus b a) (minus d c)) (cross (minus b a) (minus d c)) }
    ensures { IsTrue result ↔ Meets a b c d d }
{
    let u = span(b, a);
    let v = span(d, c);
    let w = span(c, a);
    let n = normal(u, v);
    let size = product(n, n);
    let s = product(normal(w, v), n);
    let t = product(normal(w, u), n);
    if s < 0 {
        return false;
    }
    if s > size {
        return false;
    }
    if t < 0 {
        return false;
    }
    t <= size
}

// Whether two segments meet, either of which may have no length.
pub(crate) fn segments_meet(a: Wide, b: Wide, c: Wide, d: Wide) -> bool
    requires a_fits { IsWithin HALF_MAX a }
    requires b_fits { IsWithin HALF_MAX b }
    requires c_fits { IsWithin HALF_MAX c }
    requires d_fits { IsWithin HALF_MAX d }
    ensures { IsTrue result ↔ Meets a b c d d }
{
    let u = span(b, a);
    let v = span(d, c);
    let n = normal(u, v);
    let h = product(n, span(c, a));
    if h > 0 {
        return false;
    }
    if h < 0 {
        return false;
    }
    if product(n, n) > 0 {
        return lines_cross(a, b, c, d);
    }
    if product(u, u) > 0 {
        return lines_meet(a, b, c, d);
    }
    if product(v, v) > 0 {
        return lines_meet(c, d, a, b);
    }
    same_position(a, c)
}

// Whether two points are at one position.
fn same_position(a: Wide, b: Wide) -> bool
    ensures { IsTrue result ↔ (a ≡ b) }
{
    a == b
}
