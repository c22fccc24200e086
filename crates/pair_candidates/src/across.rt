//! Directions across an edge.
ghost use Rattle.std.specs.Prelude.{◌≤◌, unsigned_abs};
ghost use Rattle.grid_base.specs.declared.narrow.TheConstants.{SPAN_MAX};
ghost use Rattle.grid_base.specs.Triples.{IsWithin};

use grid_base::Wide;
use grid_base::narrow::SPAN_MAX;

/// Two directions across an edge, each along two of the axes.
#[derive(Clone, Copy)]
pub(crate) struct Across {
    pub(crate) first: Wide,
    pub(crate) second: Wide,
    pub(crate) ghost first_fits: { IsWithin SPAN_MAX first },
    pub(crate) ghost second_fits: { IsWithin SPAN_MAX second },
}

// The number with the other sign.
fn negated(a: i128) -> i128
    requires { unsigned_abs a ≤ SPAN_MAX }
    ensures { unsigned_abs result ≤ SPAN_MAX }
{
    0 - a
}

/// A direction across a way, along the axes y and z.
pub(crate) fn across_x(way: Wide) -> Wide
    requires { IsWithin SPAN_MAX way }
    ensures { IsWithin SPAN_MAX result }
{
    Wide {
        x: 0,
        y: way.z,
        z: negated(way.y),
    }
}

/// A direction across a way, along the axes x and z.
pub(crate) fn across_y(way: Wide) -> Wide
    requires { IsWithin SPAN_MAX way }
    ensures { IsWithin SPAN_MAX result }
{
    Wide {
        x: negated(way.z),
        y: 0,
        z: way.x,
    }
}

/// A direction across a way, along the axes x and y.
pub(crate) fn across_z(way: Wide) -> Wide
    requires { IsWithin SPAN_MAX way }
    ensures { IsWithin SPAN_MAX result }
{
    Wide {
        x: way.y,
        y: negated(way.x),
        z: 0,
    }
}

// Whether the first number is as great as both others, signs apart.
fn is_greatest(a: i128, b: i128, c: i128) -> bool {
    a.unsigned_abs() >= b.unsigned_abs() && a.unsigned_abs() >= c.unsigned_abs()
}

impl Across {
    /// Two directions across a way, both along the axis along which it is longest.
    pub(crate) fn of(way: Wide) -> Across
        requires { IsWithin SPAN_MAX way }
    {
        let (x, y, z) = (across_x(way), across_y(way), across_z(way));
        if is_greatest(way.z, way.x, way.y) {
            return Across {
                first: x,
                second: y,
            };
        }
        if is_greatest(way.y, way.x, way.z) {
            return Across {
                first: x,
                second: z,
            };
        }
        Across {
            first: y,
            second: z,
        }
    }
}
