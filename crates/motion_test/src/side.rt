ghost use Rattle.std.specs.Prelude.{◌≡◌, ◌↔◌, IsTrue, Some};
ghost use Rattle.motion_test.specs.Heights.{AreOn, AreWeaklyOn};

// A side of a triangle along a direction.
#[derive(Clone, Copy)]
pub(crate) enum Side {
    Below,
    Above,
}

// The side of a third height that two heights are strictly on, if they are on one.
#[inline(always)]
pub(crate) fn side_by(a: i128, b: i128, c: i128) -> Option<Side>
    ensures { (side : Side) → (result ≡ Some side) ↔ AreOn side a b c }
{
    if both_on(Side::Below, a, b, c) {
        return Some(Side::Below);
    }
    if both_on(Side::Above, a, b, c) {
        return Some(Side::Above);
    }
    None
}

// Whether two heights are strictly on the side of a third.
#[inline(always)]
pub(crate) fn both_on(side: Side, a: i128, b: i128, c: i128) -> bool
    ensures { IsTrue result ↔ AreOn side a b c }
{
    match side {
        Side::Below => a < c && b < c,
        Side::Above => c < a && c < b,
    }
}

// Whether two heights are on the side of a third, or level with it.
pub(crate) fn both_weakly_on(side: Side, a: i128, b: i128, c: i128) -> bool
    ensures { IsTrue result ↔ AreWeaklyOn side a b c }
{
    match side {
        Side::Below => a <= c && b <= c,
        Side::Above => c <= a && c <= b,
    }
}
