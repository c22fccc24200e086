ghost use Rattle.std.specs.Prelude.{◌≡◌, ◌<◌, slice_index_or};
ghost use Rattle.std.specs.List.{All};
ghost use Rattle.grid_base.specs.Triples.{IsWithin};
ghost use Rattle.grid_base.specs.Meeting.{AreWithin};
ghost use Rattle.grid_base.specs.Separation.{ten_directions, directions};
ghost use Rattle.motion_test.specs.Pairs.{origin};
ghost use Rattle.motion_test.specs.Small.{position_max, direction_max};

use crate::small::{cross, difference};
use grid_base::{DIRECTION_MAX, Positions, WIDE_MAX, Wide};

/// The 23 directions over an interval from `s` to `t`, in the order in which they are tried: the
/// three axes; then at the start, and then at the end, the triangle's normal, the cross products of
/// the edge with the triangle's three sides, and the six differences of a corner and an edge end.
pub fn directions(s: &Positions, t: &Positions) -> [Wide; 23]
    requires s_fits { AreWithin WIDE_MAX s.now }
    requires t_fits { AreWithin WIDE_MAX t.now }
    ensures value { result ≡ directions s.now t.now }
    ensures within { All (IsWithin DIRECTION_MAX) result }
{
    let a = ten(s);
    let b = ten(t);
    [
        Wide { x: 1, y: 0, z: 0 },
        Wide { x: 0, y: 1, z: 0 },
        Wide { x: 0, y: 0, z: 1 },
        a[0],
        a[1],
        a[2],
        a[3],
        a[4],
        a[5],
        a[6],
        a[7],
        a[8],
        a[9],
        b[0],
        b[1],
        b[2],
        b[3],
        b[4],
        b[5],
        b[6],
        b[7],
        b[8],
        b[9],
    ]
}

// One of the ten directions that five positions give.
pub(crate) fn direction_of(i: usize, f: &Positions, small: bool) -> Wide
    requires listed { i < 10 }
    requires f_fits { AreWithin (position_max small) f.now }
    ensures value { result ≡ slice_index_or (ten_directions f.now) i origin }
    ensures within { IsWithin (direction_max small) result }
{
    match i {
        0 => cross(
            difference(f.d, f.c, small),
            difference(f.e, f.c, small),
            small,
        ),
        1 => cross(
            difference(f.b, f.a, small),
            difference(f.d, f.c, small),
            small,
        ),
        2 => cross(
            difference(f.b, f.a, small),
            difference(f.e, f.d, small),
            small,
        ),
        3 => cross(
            difference(f.b, f.a, small),
            difference(f.c, f.e, small),
            small,
        ),
        4 => difference(f.c, f.a, small),
        5 => difference(f.d, f.a, small),
        6 => difference(f.e, f.a, small),
        7 => difference(f.c, f.b, small),
        8 => difference(f.d, f.b, small),
        _ => difference(f.e, f.b, small),
    }
}

// The ten directions that five positions give.
fn ten(f: &Positions) -> [Wide; 10]
    requires { AreWithin WIDE_MAX f.now }
    ensures value { result ≡ ten_directions f.now }
    ensures within { All (IsWithin DIRECTION_MAX) result }
{
    [
        direction_of(0, f, false),
        direction_of(1, f, false),
        direction_of(2, f, false),
        direction_of(3, f, false),
        direction_of(4, f, false),
        direction_of(5, f, false),
        direction_of(6, f, false),
        direction_of(7, f, false),
        direction_of(8, f, false),
        direction_of(9, f, false),
    ]
}
