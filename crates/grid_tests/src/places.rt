//! Positions and boxes for the examples.
ghost use Rattle.std.specs.Prelude.{◌↔◌, IsTrue};
ghost use Rattle.grid_base.specs.Triples.{IsWithin};
ghost use Rattle.grid_base.specs.declared.TheConstants.{HALF_MAX};

use grid_base::{EXTENT_MAX, Extent, HALF_MAX, Wide};
use std::process::Abort;

pub(crate) fn wide(p: [i64; 3]) -> Wide {
    Wide {
        x: i128::from(p[0]),
        y: i128::from(p[1]),
        z: i128::from(p[2]),
    }
}

pub(crate) fn is_within(most: u32, p: Wide) -> bool
    ensures { IsTrue result ↔ IsWithin most p }
{
    let most = most as u128;
    p.x.unsigned_abs() <= most && p.y.unsigned_abs() <= most && p.z.unsigned_abs() <= most
}

// A position.
pub(crate) fn position(rt: &impl Abort, p: [i64; 3]) -> Wide
    ensures { IsWithin HALF_MAX result }
{
    let p = wide(p);
    assert!(rt; is_within(HALF_MAX, p));
    p
}

// A box, from one corner to the other.
pub(crate) fn extent(rt: &impl Abort, low: [i64; 3], high: [i64; 3]) -> Extent {
    let low = wide(low);
    let high = wide(high);
    assert!(rt; is_within(EXTENT_MAX, low));
    assert!(rt; is_within(EXTENT_MAX, high));
    Extent::around(low, high)
}
