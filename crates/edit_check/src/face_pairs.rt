//! Whether sides of touched faces, and of the faces near them, fail to do what is required of them.
ghost use Rattle.std.specs.Prelude.{◌≡◌, ◌≤◌, nat_lt, true, false, IsTrue};
ghost use Rattle.std.specs.List.{list_any};
ghost use Rattle.pair_paths.specs.Bounds.{HoldsEdge};
ghost use Rattle.pair_paths.specs.Pairing.{have_a_vertex_in_common};
ghost use Rattle.edit_check.specs.Sides.{side_of};
ghost use Rattle.edit_check.specs.FacePairs.{upward, runs_down_beside, is_asked_elsewhere};
ghost use Rattle.edit_check.specs.FacePairs.{side_fails, sides_fail, faces_fail};
ghost use Rattle.edit_check.specs.FacePairs.{fails_with_some, some_touched_fail};

use crate::boxed::{BoxedEdge, BoxedFace};
use crate::neighbourhood::Neighbourhood;
use crate::pair_test::{fails, is_side_of_some};
use crate::sides::{Side, box_of_side, is_run_by_some, side_of, turned};
use box_tree::SmallBox;
use pair_paths::MovingEdge;

/// The side as an edge, its smaller end first.
fn upward(side: &MovingEdge) -> MovingEdge
    ensures { result ≡ upward side.now }
{
    if side.b.0 < side.a.0 {
        turned(side)
    } else {
        *side
    }
}

/// Whether the side runs down, and one of the faces runs the other way.
fn runs_down_beside(side: &MovingEdge, faces: &[BoxedFace]) -> bool
    ensures { result ≡ runs_down_beside faces.now side.now }
{
    side.b.0 < side.a.0 && is_run_by_some(side.b, side.a, faces)
}

/// Whether a side is asked for at another face: one of a touched face, where it runs down and another touched face runs up;
/// one of any other face, where a touched face has it as a side too, or it runs down and another face runs up.
fn is_asked_elsewhere(near: &Neighbourhood, is_own: bool, side: &MovingEdge) -> bool
    ensures { let n = near.now in
        result ≡ is_asked_elsewhere n.faces.now n.touched.now is_own side.now }
{
    if is_own {
        return runs_down_beside(side, near.touched);
    }
    is_side_of_some(side.a, side.b, near.touched) || runs_down_beside(side, near.faces)
}

/// Among so many faces it takes less time to look whether one runs a side's way than to test a pair. Only speed depends on it.
const FEW: usize = 64;

/// Whether it is seen without a long look that a side is asked for elsewhere: the touched faces are few, and all faces near are looked
/// through only where they are few too.
fn is_left_out(near: &Neighbourhood, is_own: bool, side: &MovingEdge) -> bool
    ensures { let n = near.now in
        IsTrue result → is_asked_elsewhere n.faces.now n.touched.now is_own side.now ≡ true }
{
    if is_own {
        return runs_down_beside(side, near.touched);
    }
    if is_side_of_some(side.a, side.b, near.touched) {
        return true;
    }
    near.faces.len() <= FEW && runs_down_beside(side, near.faces)
}

/// Whether a side, whose ends have their paths in the box, fails with a face to do what is required of them, and is not asked for
/// elsewhere.
fn boxed_side_fails(
    near: &Neighbourhood,
    is_own: bool,
    side: &MovingEdge,
    bounds: SmallBox,
    f: &BoxedFace,
) -> bool
    requires { HoldsEdge side.now bounds }
    ensures { let n = near.now in
        result ≡ side_fails n.terms n.faces.now n.touched.now is_own side.now f.now.face }
{
    if is_left_out(near, is_own, side) {
        return false;
    }
    let e = BoxedEdge {
        edge: upward(side),
        bounds,
    };
    let t = near.terms;
    if !fails(t.touch, t.together, t.depth, &e, f) {
        return false;
    }
    !is_asked_elsewhere(near, is_own, side)
}

/// The same of a side of a face, and of another face. It does not fail where they are known to share a vertex, and where their boxes have no
/// common point.
#[inline(always)]
fn side_fails(
    near: &Neighbourhood,
    is_own: bool,
    is_shared: bool,
    side: Side,
    f: &BoxedFace,
    g: &BoxedFace,
) -> bool
    requires { is_shared ≡ have_a_vertex_in_common (side_of side f.now.face) g.now.face }
    ensures { let n = near.now in
        result ≡ side_fails n.terms n.faces.now n.touched.now is_own (side_of side f.now.face) g.now.face }
{
    if is_shared {
        return false;
    }
    let bounds = box_of_side(side, f);
    if !g.bounds.overlaps(&bounds) {
        return false;
    }
    boxed_side_fails(near, is_own, &side_of(side, &f.face), bounds, g)
}

/// Whether one of the sides of a face fails with another face, and is not asked for elsewhere.
#[inline(always)]
fn sides_fail(near: &Neighbourhood, is_own: bool, f: &BoxedFace, g: &BoxedFace) -> bool
    ensures { let n = near.now in
        result ≡ sides_fail n.terms n.faces.now n.touched.now is_own f.now.face g.now.face }
{
    let corners = &f.face.corners;
    let first = g.face.corners.has_corner(corners.first);
    let second = g.face.corners.has_corner(corners.second);
    let third = g.face.corners.has_corner(corners.third);
    side_fails(near, is_own, first || second, Side::First, f, g)
        || side_fails(near, is_own, second || third, Side::Second, f, g)
        || side_fails(near, is_own, third || first, Side::Third, f, g)
}

/// Whether a side of a touched face fails with another face, or a side of that one with the touched one. None does where
/// their boxes have no common point.
fn faces_fail(near: &Neighbourhood, f: &BoxedFace, g: &BoxedFace) -> bool
    ensures { let n = near.now in
        result ≡ faces_fail n.terms n.faces.now n.touched.now f.now.face g.now.face }
{
    if !g.bounds.overlaps(&f.bounds) {
        return false;
    }
    sides_fail(near, true, f, g) || sides_fail(near, false, g, f)
}

/// Whether a touched face and one of the faces near fail so.
fn fails_with_some(near: &Neighbourhood, f: &BoxedFace) -> bool
    ensures { let n = near.now in
        result ≡ fails_with_some n.terms n.faces.now n.touched.now f.now.face n.faces.now }
{
    for g in near.faces {
        if faces_fail(near, f, g) {
            return true;
        }
    }
    false
}

/// Whether one of the touched faces and one of the faces near fail so. Where none do, no edge of the faces has a pair that is
/// not as required.
fn some_touched_fail(near: &Neighbourhood) -> bool
    ensures { let n = near.now in
        result ≡ some_touched_fail n.terms n.faces.now n.touched.now n.touched.now }
{
    for f in near.touched {
        if fails_with_some(near, f) {
            return true;
        }
    }
    false
}

/// Among so many touched faces it takes less time to look for a pair face against face than edge by edge. Only speed depends on it.
const TOUCHED: usize = 64;

/// Whether it is found so that none fails. Where many are touched, as all round a vertex of high degree that moves, it is not looked.
pub(crate) fn none_is_seen_to_fail(near: &Neighbourhood) -> bool
    ensures { let n = near.now in
        IsTrue result → some_touched_fail n.terms n.faces.now n.touched.now n.touched.now ≡ false }
{
    if near.touched.len() > TOUCHED {
        return false;
    }
    !some_touched_fail(near)
}
