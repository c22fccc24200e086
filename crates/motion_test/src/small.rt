ghost use Rattle.std.specs.Prelude.{◌≡◌};
ghost use Rattle.grid_base.specs.Triples.{IsWithin, minus, cross, dot};
ghost use Rattle.motion_test.specs.Small.{position_max, difference_max, direction_max};

use grid_base::Wide;
use grid_base::narrow::{normal, product};

// The difference of two positions.
pub(crate) fn difference(a: Wide, b: Wide, small: bool) -> Wide
    requires a_fits { IsWithin (position_max small) a }
    requires b_fits { IsWithin (position_max small) b }
    ensures value { result ≡ minus a b }
    ensures within { IsWithin (difference_max small) result }
    ensures within_directions { IsWithin (direction_max small) result }
{
    a.minus(b)
}

// The cross product of two differences, by 64 bits where all is small.
pub(crate) fn cross(a: Wide, b: Wide, small: bool) -> Wide
    requires a_fits { IsWithin (difference_max small) a }
    requires b_fits { IsWithin (difference_max small) b }
    ensures value { result ≡ cross a b }
    ensures within { IsWithin (direction_max small) result }
{
    if small { normal(a, b) } else { a.cross(b) }
}

// How far a position lies along a direction, by 64 bits where all is small.
pub(crate) fn height(n: Wide, p: Wide, small: bool) -> i128
    requires n_fits { IsWithin (direction_max small) n }
    requires p_fits { IsWithin (position_max small) p }
    ensures { result ≡ dot n p }
{
    if small { product(n, p) } else { n.dot(p) }
}
