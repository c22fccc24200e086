//! An edge and a face as a pair.
ghost use Rattle.std.specs.Prelude.{◌≡◌};
ghost use Rattle.grid_base.specs.declared.TheConstants.{HALF_MAX};
ghost use Rattle.grid_base.specs.Meeting.{AreWithin};
ghost use Rattle.motion_test.specs.Pairs.{positions_of};
ghost use Rattle.pair_paths.specs.Pairing.{have_a_vertex_in_common, name_with, starts, ends};

use crate::moving_parts::{MovingEdge, MovingFace};
use grid_base::{HALF_MAX, Wide};
use mesh_base::PairName;
use motion_test::Pair;

/// Whether an end of the edge is a corner of the face. Then they are no pair.
pub fn share_a_vertex(e: &MovingEdge, f: &MovingFace) -> bool
    ensures { result ≡ have_a_vertex_in_common e.now f.now }
{
    f.corners.has_corner(e.a) || f.corners.has_corner(e.b)
}

/// The name of the edge and the face as a pair.
pub fn name_of(e: &MovingEdge, f: &MovingFace) -> PairName
    ensures { result ≡ name_with e.now f.now }
{
    PairName {
        a: e.a,
        b: e.b,
        face: f.face,
    }
}

/// Where the ends of the edge and the corners of the face begin.
pub fn starts_of(e: &MovingEdge, f: &MovingFace) -> [Wide; 5]
    ensures value { positions_of result ≡ starts e.now f.now }
    ensures within { AreWithin HALF_MAX (positions_of result) }
{
    [
        e.first.start.wide(),
        e.second.start.wide(),
        f.c.start.wide(),
        f.d.start.wide(),
        f.e.start.wide(),
    ]
}

/// Where they end.
pub fn ends_of(e: &MovingEdge, f: &MovingFace) -> [Wide; 5]
    ensures value { positions_of result ≡ ends e.now f.now }
    ensures within { AreWithin HALF_MAX (positions_of result) }
{
    [
        e.first.end.wide(),
        e.second.end.wide(),
        f.c.end.wide(),
        f.d.end.wide(),
        f.e.end.wide(),
    ]
}

/// The edge and the face as the test of a motion takes them.
pub fn pair_of(e: &MovingEdge, f: &MovingFace) -> Pair
    ensures start { positions_of result.start ≡ starts e.now f.now }
    ensures end { positions_of result.end ≡ ends e.now f.now }
    ensures start_within { AreWithin HALF_MAX (positions_of result.start) }
    ensures end_within { AreWithin HALF_MAX (positions_of result.end) }
{
    Pair {
        start: starts_of(e, f),
        end: ends_of(e, f),
    }
}
