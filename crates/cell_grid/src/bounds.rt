// Boxes in 32 bits a coordinate.
ghost use Rattle.std.specs.Prelude.{◌≡◌, ◌≤◌, ◌*◌, IsTrue, unsigned_abs};
ghost use Rattle.grid_base.specs.declared.TheConstants.{EXTENT_MAX};
ghost use Rattle.cell_grid.specs.Bounds.{offset, bounds_of, intervals_meet, bounds_meet};
ghost use Rattle.cell_grid.specs.declared.bounds.Interval.{Interval as Along};
ghost use Rattle.cell_grid.specs.declared.bounds.Bounds.{Bounds as Box};

use crate::Extent;
use grid_base::EXTENT_MAX;

/// The numbers from one to another, both of which belong to it.
#[derive(Clone, Copy)]
pub(crate) struct Interval {
    pub low: u32,
    pub high: u32,
}

/// A box along the axes, whose coordinates are counted from the least that an extent has.
#[derive(Clone, Copy)]
pub(crate) struct Bounds {
    pub x: Interval,
    pub y: Interval,
    pub z: Interval,
}

/// A coordinate, counted from the least that an extent has.
pub(crate) fn offset(a: i128) -> u32
    requires { unsigned_abs a ≤ EXTENT_MAX }
    ensures value { result ≡ offset a }
    ensures within { result ≤ 2 * EXTENT_MAX }
{
    (a + EXTENT_MAX as i128) as u32
}

impl Interval {
    /// The interval between two coordinates.
    fn between(low: i128, high: i128) -> Interval
        requires low_fits { unsigned_abs low ≤ EXTENT_MAX }
        requires high_fits { unsigned_abs high ≤ EXTENT_MAX }
        ensures low { result.low ≡ offset low }
        ensures high { result.high ≡ offset high }
    {
        Interval {
            low: offset(low),
            high: offset(high),
        }
    }

    /// An interval that has both.
    fn united(self, other: Interval) -> Interval
        ensures first { (q : Along) → IsTrue (intervals_meet self q)
            → IsTrue (intervals_meet result q) }
        ensures second { (q : Along) → IsTrue (intervals_meet other q)
            → IsTrue (intervals_meet result q) }
    {
        Interval {
            low: self.low.min(other.low),
            high: self.high.max(other.high),
        }
    }

    /// Whether the two have a common number.
    fn meets(self, other: Interval) -> bool
        ensures { result ≡ intervals_meet self other }
    {
        self.low <= other.high && other.low <= self.high
    }
}

impl Bounds {
    /// The bounds of an extent.
    pub(crate) fn of(e: &Extent) -> Bounds
        ensures { result ≡ bounds_of e.now }
    {
        Bounds {
            x: Interval::between(e.low.x, e.high.x),
            y: Interval::between(e.low.y, e.high.y),
            z: Interval::between(e.low.z, e.high.z),
        }
    }

    /// Bounds that have both.
    pub(crate) fn united(self, other: Bounds) -> Bounds
        ensures first { (q : Box) → IsTrue (bounds_meet self q) → IsTrue (bounds_meet result q) }
        ensures second { (q : Box) → IsTrue (bounds_meet other q) → IsTrue (bounds_meet result q) }
    {
        Bounds {
            x: self.x.united(other.x),
            y: self.y.united(other.y),
            z: self.z.united(other.z),
        }
    }

    /// Whether the two have a common point.
    pub(crate) fn meets(&self, other: &Bounds) -> bool
        ensures { result ≡ bounds_meet self.now other.now }
    {
        self.x.meets(other.x) && self.y.meets(other.y) && self.z.meets(other.z)
    }
}
