//! Whether the heights of an edge along a direction lie apart from those of a face.
ghost use Rattle.std.specs.Prelude.{◌<ℤ◌, IsTrue};
ghost use Rattle.neighbour_list.specs.Heights.{AreBelow, AreAbove};

// Whether two numbers are less than a third.
#[inline(always)]
fn both_below(a: i128, b: i128, c: i128) -> bool
    ensures { IsTrue result → (a <ℤ c) × (b <ℤ c) }
{
    a < c && b < c
}

// Whether two numbers are greater than a third.
#[inline(always)]
fn both_above(a: i128, b: i128, c: i128) -> bool
    ensures { IsTrue result → (c <ℤ a) × (c <ℤ b) }
{
    c < a && c < b
}

/// Whether the first two heights are less than the other three.
#[inline(always)]
pub(crate) fn are_below(a: i128, b: i128, c: i128, d: i128, e: i128) -> bool
    ensures { IsTrue result → AreBelow a b c d e }
{
    if !both_below(a, b, c) {
        return false;
    }
    if !both_below(a, b, d) {
        return false;
    }
    both_below(a, b, e)
}

/// Whether they are greater.
#[inline(always)]
pub(crate) fn are_above(a: i128, b: i128, c: i128, d: i128, e: i128) -> bool
    ensures { IsTrue result → AreAbove a b c d e }
{
    if !both_above(a, b, c) {
        return false;
    }
    if !both_above(a, b, d) {
        return false;
    }
    both_above(a, b, e)
}
