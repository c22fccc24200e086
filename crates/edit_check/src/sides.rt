//! The sides of faces, as edges.
ghost use Rattle.std.specs.Prelude.{◌≡◌};
ghost use Rattle.pair_paths.specs.Bounds.{HoldsEdge};
ghost use Rattle.edit_check.specs.Sides.{first_side, second_side, third_side, side_of};
ghost use Rattle.edit_check.specs.Sides.{turned, is_run_by_some};

use crate::boxed::BoxedFace;
use box_tree::SmallBox;
use mesh_base::VertexId;
use pair_paths::{MovingEdge, MovingFace};

/// The side from the first corner to the second.
pub(crate) fn first_side(f: &MovingFace) -> MovingEdge
    ensures { result ≡ first_side f.now }
{
    MovingEdge {
        a: f.corners.first,
        b: f.corners.second,
        first: f.c,
        second: f.d,
    }
}

/// The side from the second corner to the third.
pub(crate) fn second_side(f: &MovingFace) -> MovingEdge
    ensures { result ≡ second_side f.now }
{
    MovingEdge {
        a: f.corners.second,
        b: f.corners.third,
        first: f.d,
        second: f.e,
    }
}

/// The side from the third corner to the first.
pub(crate) fn third_side(f: &MovingFace) -> MovingEdge
    ensures { result ≡ third_side f.now }
{
    MovingEdge {
        a: f.corners.third,
        b: f.corners.first,
        first: f.e,
        second: f.c,
    }
}

/// Which of the sides of a face.
#[derive(Clone, Copy)]
pub(crate) enum Side {
    /// From the first corner to the second.
    First,
    /// From the second corner to the third.
    Second,
    /// From the third corner to the first.
    Third,
}

/// That side of the face.
#[inline(always)]
pub(crate) fn side_of(side: Side, f: &MovingFace) -> MovingEdge
    ensures { result ≡ side_of side f.now }
{
    match side {
        Side::First => first_side(f),
        Side::Second => second_side(f),
        Side::Third => third_side(f),
    }
}

/// The box of that side of the face.
#[inline(always)]
pub(crate) fn box_of_side(side: Side, f: &BoxedFace) -> SmallBox
    ensures { HoldsEdge (side_of side f.now.face) result }
{
    match side {
        Side::First => f.first,
        Side::Second => f.second,
        Side::Third => f.third,
    }
}

/// The edge, its other end first.
pub(crate) fn turned(e: &MovingEdge) -> MovingEdge
    ensures { result ≡ turned e.now }
{
    MovingEdge {
        a: e.b,
        b: e.a,
        first: e.second,
        second: e.first,
    }
}

/// Whether one of the faces runs from the one vertex to the other.
pub(crate) fn is_run_by_some(u: VertexId, v: VertexId, faces: &[BoxedFace]) -> bool
    ensures { result ≡ is_run_by_some u v faces.now }
{
    for f in faces {
        if f.face.corners.follows(u, v) {
            return true;
        }
    }
    false
}
