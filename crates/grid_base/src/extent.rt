ghost use Rattle.std.specs.Prelude.{◌≡◌};
ghost use Rattle.grid_base.specs.Ordered.{AreOrdered};

use crate::Wide;

/// A box along the axes, from its least corner to its greatest, both of which belong to it. Each of its sides may have
/// length zero, and its coordinates are at most `EXTENT_MAX` in size.
#[derive(Clone, Copy, Debug, PartialEq, Eq)]
pub struct Extent {
    /// The least corner.
    pub low: Wide,
    /// The greatest corner.
    pub high: Wide,
    pub ghost ordered: { AreOrdered low high },
}

impl Extent {
    ghost use Rattle.grid_base.specs.declared.TheConstants.{EXTENT_MAX};
    ghost use Rattle.grid_base.specs.Triples.{IsWithin};
    ghost use Rattle.grid_base.specs.Extents.{IsIn, IsInside, overlaps};

    /// The box of two positions: the least that has both.
    pub fn around(a: Wide, b: Wide) -> Extent
        requires a_fits { IsWithin EXTENT_MAX a }
        requires b_fits { IsWithin EXTENT_MAX b }
        ensures first { IsIn result a }
        ensures second { IsIn result b }
        ensures least { (e : Extent) → IsIn e a → IsIn e b → IsInside result e }
    {
        Extent {
            low: lower(a, b),
            high: upper(a, b),
        }
    }

    /// The least box that has both.
    pub fn united(&self, other: &Extent) -> Extent
        ensures first { IsInside self.now result }
        ensures second { IsInside other.now result }
        ensures least { (e : Extent) → IsInside self.now e → IsInside other.now e → IsInside result e }
    {
        Extent {
            low: lower(self.low, other.low),
            high: upper(self.high, other.high),
        }
    }

    /// Whether the two have a common point.
    pub fn overlaps(&self, other: &Extent) -> bool
        ensures { result ≡ overlaps self.now other.now }
    {
        let (a, b) = (self, other);
        if !meet_along(a.low.x, a.high.x, b.low.x, b.high.x) {
            return false;
        }
        if !meet_along(a.low.y, a.high.y, b.low.y, b.high.y) {
            return false;
        }
        meet_along(a.low.z, a.high.z, b.low.z, b.high.z)
    }
}

mod along;
mod corners;

use along::meet_along;
use corners::{lower, upper};
