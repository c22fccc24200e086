//! Boxes that take 32 bits a coordinate.
ghost use Rattle.std.specs.Prelude.{◌≡◌};
ghost use Rattle.grid_base.specs.Ordered.{AreOrdered};

use grid_base::{Extent, Wide};
use std::marker::Model;

/// A box along the axes whose corners are kept in 32 bits a coordinate. A contract sees the extent.
#[derive(Clone, Copy)]
pub struct SmallBox {
    low_x: i32,
    low_y: i32,
    low_z: i32,
    high_x: i32,
    high_y: i32,
    high_z: i32,
    ghost ordered: { AreOrdered (record { x = low_x; y = low_y; z = low_z })
        (record { x = high_x; y = high_y; z = high_z }) },
}

impl Model for SmallBox {
    ghost use Rattle.grid_base.specs.declared.Extent.{Extent};

    ghost Value = { Extent };

    ghost view = { λ b. record {
      low = record { x = b.low_x; y = b.low_y; z = b.low_z };
      high = record { x = b.high_x; y = b.high_y; z = b.high_z };
      ordered = b.ordered;
    } };

    ghost inverse = { λ e. record {
      low_x = e.low.x;
      low_y = e.low.y;
      low_z = e.low.z;
      high_x = e.high.x;
      high_y = e.high.y;
      high_z = e.high.z;
      ordered = e.ordered;
    } };
}

impl SmallBox {
    ghost use Rattle.grid_base.specs.Extents.{overlaps};

    /// The box of an extent.
    pub fn of(e: &Extent) -> SmallBox
        ensures { result ≡ e.now }
    {
        SmallBox {
            low_x: e.low.x as i32,
            low_y: e.low.y as i32,
            low_z: e.low.z as i32,
            high_x: e.high.x as i32,
            high_y: e.high.y as i32,
            high_z: e.high.z as i32,
        }
    }

    /// The extent.
    pub fn extent(&self) -> Extent
        ensures { result ≡ self.now }
    {
        Extent {
            low: Wide {
                x: i128::from(self.low_x),
                y: i128::from(self.low_y),
                z: i128::from(self.low_z),
            },
            high: Wide {
                x: i128::from(self.high_x),
                y: i128::from(self.high_y),
                z: i128::from(self.high_z),
            },
        }
    }

    /// The sums of the box's ends along the axes, from 0 on.
    pub(crate) fn middle(&self) -> (u64, u64, u64) {
        (
            middle_along(self.low_x, self.high_x),
            middle_along(self.low_y, self.high_y),
            middle_along(self.low_z, self.high_z),
        )
    }

    /// Whether the two have a common point.
    pub fn overlaps(&self, other: &SmallBox) -> bool
        ensures { result ≡ overlaps self.now other.now }
    {
        let (a, b) = (self, other);
        if !meet_along(a.low_x, a.high_x, b.low_x, b.high_x) {
            return false;
        }
        if !meet_along(a.low_y, a.high_y, b.low_y, b.high_y) {
            return false;
        }
        meet_along(a.low_z, a.high_z, b.low_z, b.high_z)
    }
}

mod along;

use along::{meet_along, middle_along};
