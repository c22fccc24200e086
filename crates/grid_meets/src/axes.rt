ghost use Rattle.std.specs.Prelude.{◌↔◌, ◌<ℤ◌, IsTrue};
ghost use Rattle.grid_base.specs.Meeting.{Meets};
ghost use Rattle.grid_meets.specs.Beyond.{LieBeyond};

use grid_base::Wide;

// Whether the edge lies beyond the triangle along one of the axes. A no says nothing.
pub(crate) fn axis_keeps_apart(a: Wide, b: Wide, c: Wide, d: Wide, e: Wide) -> bool
    ensures { IsTrue result → ¬ (Meets a b c d e) }
{
    if lie_beyond(a.x, b.x, c.x, d.x, e.x) {
        return true;
    }
    if lie_beyond(a.y, b.y, c.y, d.y, e.y) {
        return true;
    }
    lie_beyond(a.z, b.z, c.z, d.z, e.z)
}

// Whether two numbers are both below three others, or both above them.
fn lie_beyond(a: i128, b: i128, c: i128, d: i128, e: i128) -> bool
    ensures { IsTrue result → LieBeyond a b c d e }
{
    if is_least(a, c, d, e) {
        return is_least(b, c, d, e);
    }
    if is_greatest(a, c, d, e) {
        return is_greatest(b, c, d, e);
    }
    false
}

// Whether the first number is below the others.
fn is_least(a: i128, c: i128, d: i128, e: i128) -> bool
    ensures { IsTrue result ↔ ((a <ℤ c) × (a <ℤ d) × (a <ℤ e)) }
{
    a < c && a < d && a < e
}

// Whether the first number is above the others.
fn is_greatest(a: i128, c: i128, d: i128, e: i128) -> bool
    ensures { IsTrue result ↔ ((c <ℤ a) × (d <ℤ a) × (e <ℤ a)) }
{
    c < a && d < a && e < a
}
