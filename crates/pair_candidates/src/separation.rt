//! What parts an edge from faces: their boxes, or a direction across an edge.
ghost use Rattle.std.specs.Prelude.{ℤ, ◌≤◌, ◌≤ℤ◌, ◌*ℤ◌, IsTrue, unsigned_abs};
ghost use Rattle.grid_base.specs.declared.TheConstants.{EXTENT_MAX, HALF_MAX};
ghost use Rattle.grid_base.specs.declared.narrow.TheConstants.{SPAN_MAX};
ghost use Rattle.grid_base.specs.declared.Positions.{Positions};
ghost use Rattle.grid_base.specs.Extents.{IsIn};
ghost use Rattle.grid_base.specs.Meeting.{MeetAt};
ghost use Rattle.grid_base.specs.Triples.{Triple, IsWithin};
ghost use Rattle.pair_paths.specs.declared.MovingFace.{MovingFace};
ghost use Rattle.pair_candidates.specs.Slabs.{IsAlong, AreBeyond, HasFace, IsPartedFrom, IsLeftOut};

use crate::across::{Across, across_x, across_y, across_z};
use crate::range::Range;
use crate::slabs::Slabs;
use box_tree::SmallBox;
use grid_base::narrow::{SPAN_MAX, product, span};
use grid_base::{EXTENT_MAX, Extent, HALF_MAX, Wide};
use pair_paths::{MovingEdge, MovingFace};

/// An edge, its box where it begins, and the directions of slabs.
#[derive(Clone, Copy)]
pub(crate) struct SlabQuery<'a> {
    pub(crate) edge: &'a MovingEdge,
    pub(crate) at: SmallBox,
    pub(crate) across: &'a Across,
    pub(crate) ghost first: { IsIn at edge.now.first.start },
    pub(crate) ghost second: { IsIn at edge.now.second.start },
}

// The end of an interval at which it is least along a direction.
fn lowest(n: i128, low: i128, high: i128) -> i128
    requires low_fits { unsigned_abs low ≤ EXTENT_MAX }
    requires high_fits { unsigned_abs high ≤ EXTENT_MAX }
    ensures within { unsigned_abs result ≤ EXTENT_MAX }
    ensures least { (p : ℤ) → low ≤ℤ p → p ≤ℤ high → (n *ℤ result) ≤ℤ (n *ℤ p) }
{
    if n < 0 { high } else { low }
}

// The end of an interval at which it is greatest along a direction.
fn highest(n: i128, low: i128, high: i128) -> i128
    requires low_fits { unsigned_abs low ≤ EXTENT_MAX }
    requires high_fits { unsigned_abs high ≤ EXTENT_MAX }
    ensures within { unsigned_abs result ≤ EXTENT_MAX }
    ensures greatest { (p : ℤ) → low ≤ℤ p → p ≤ℤ high → (n *ℤ p) ≤ℤ (n *ℤ result) }
{
    if n < 0 { low } else { high }
}

// How far a box reaches along a direction.
fn reach(n: Wide, e: &Extent) -> Range
    requires { IsWithin SPAN_MAX n }
    ensures { (p : Triple) → IsIn e.now p → IsAlong n result p }
{
    let low = Wide {
        x: lowest(n.x, e.low.x, e.high.x),
        y: lowest(n.y, e.low.y, e.high.y),
        z: lowest(n.z, e.low.z, e.high.z),
    };
    let high = Wide {
        x: highest(n.x, e.low.x, e.high.x),
        y: highest(n.y, e.low.y, e.high.y),
        z: highest(n.z, e.low.z, e.high.z),
    };
    Range {
        low: product(n, low),
        high: product(n, high),
    }
}

// Whether both positions lie below the range along the direction, or both above it.
fn are_beyond(n: Wide, r: &Range, a: Wide, b: Wide) -> bool
    requires n_fits { IsWithin SPAN_MAX n }
    requires a_fits { IsWithin HALF_MAX a }
    requires b_fits { IsWithin HALF_MAX b }
    ensures { IsTrue result → AreBeyond n r.now a b }
{
    let first = product(n, a);
    let second = product(n, b);
    if first < r.low {
        return second < r.low;
    }
    first > r.high && second > r.high
}

// Whether a direction parts an edge from a box.
fn is_beside(n: Wide, e: &Extent, a: Wide, b: Wide) -> bool
    requires n_fits { IsWithin SPAN_MAX n }
    requires a_fits { IsWithin HALF_MAX a }
    requires b_fits { IsWithin HALF_MAX b }
    ensures { IsTrue result → IsPartedFrom (IsIn e.now) a b }
{
    are_beyond(n, &reach(n, e), a, b)
}

// Whether a direction across an edge parts it from a box. With the axes these are all directions that may.
fn is_across_from(e: &Extent, a: Wide, b: Wide) -> bool
    requires a_fits { IsWithin HALF_MAX a }
    requires b_fits { IsWithin HALF_MAX b }
    ensures { IsTrue result → IsPartedFrom (IsIn e.now) a b }
{
    let way = span(b, a);
    if is_beside(across_x(way), e, a, b) {
        return true;
    }
    if is_beside(across_y(way), e, a, b) {
        return true;
    }
    is_beside(across_z(way), e, a, b)
}

impl<'a> SlabQuery<'a> {
    // Whether one of the two directions of the slabs parts the edge from what has them.
    fn is_beyond(&self, s: &Slabs) -> bool
        ensures { IsTrue result → (f : MovingFace) → HasFace self.now.across.now s.now f
            → IsLeftOut self.now.edge.now f }
    {
        let e = self.edge;
        let a = e.first.start.wide();
        let b = e.second.start.wide();
        if are_beyond(self.across.first, &s.first, a, b) {
            return true;
        }
        are_beyond(self.across.second, &s.second, a, b)
    }

    // Whether the box of the slabs is apart from the edge's, or from the edge.
    fn is_outside(&self, s: &Slabs) -> bool
        ensures { IsTrue result → (f : MovingFace) → HasFace self.now.across.now s.now f
            → IsLeftOut self.now.edge.now f }
    {
        if !s.at.overlaps(&self.at) {
            return true;
        }
        let e = self.edge;
        let a = e.first.start.wide();
        let b = e.second.start.wide();
        is_across_from(&s.at.extent(), a, b)
    }

    // Whether an end of the edge is a label.
    fn is_known(&self, s: &Slabs) -> bool
        ensures { IsTrue result → (f : MovingFace) → HasFace self.now.across.now s.now f
            → IsLeftOut self.now.edge.now f }
    {
        let e = self.edge;
        s.labels.has(e.a.0) || s.labels.has(e.b.0)
    }

    /// Whether each face that has these slabs is left out of those of the edge: whether it has an end of it as a corner, or
    /// is seen not to meet it.
    pub(crate) fn leaves_out(&self, s: &Slabs) -> bool
        ensures { IsTrue result → (f : MovingFace) → HasFace self.now.across.now s.now f
            → IsLeftOut self.now.edge.now f }
    {
        self.is_known(s) || self.is_beyond(s) || self.is_outside(s)
    }
}
