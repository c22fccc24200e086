//! How far faces reach where they begin: along the axes, and along two directions across an edge (bounding slabs, Kay and
//! Kajiya 1986).
ghost use Rattle.std.specs.Prelude.{◌≡◌, ◌≤◌, ◌≤ℤ◌, true, ℕ, unsigned_abs};
ghost use Rattle.grid_base.specs.declared.narrow.TheConstants.{SPAN_MAX, TOTAL_MAX};
ghost use Rattle.grid_base.specs.Triples.{Triple, IsWithin};
ghost use Rattle.box_tree.specs.Labels.{has_label};
ghost use Rattle.pair_paths.specs.declared.Frame.{Frame};
ghost use Rattle.pair_paths.specs.declared.MovingFace.{MovingFace};
ghost use Rattle.pair_paths.specs.FaceBoxes.{IsFaceBoxIn};
ghost use Rattle.pair_candidates.specs.declared.across.Across.{Across};
ghost use Rattle.pair_candidates.specs.Slabs.{IsAlong, HasFace};

use crate::across::Across;
use crate::range::Range;
use box_tree::{LabelledBox, Labels, SmallBox};
use grid_base::Wide;
use grid_base::narrow::{SPAN_MAX, TOTAL_MAX, product};
use pair_paths::MovingFace;

/// How far faces reach where they begin, and the labels that all of them have.
#[derive(Clone, Copy)]
pub(crate) struct Slabs {
    pub(crate) at: SmallBox,
    pub(crate) first: Range,
    pub(crate) second: Range,
    pub(crate) labels: Labels,
}

// The smaller of two numbers.
fn least(a: i128, b: i128) -> i128
    requires a_fits { unsigned_abs a ≤ TOTAL_MAX }
    requires b_fits { unsigned_abs b ≤ TOTAL_MAX }
    ensures first { result ≤ℤ a }
    ensures second { result ≤ℤ b }
    ensures within { unsigned_abs result ≤ TOTAL_MAX }
{
    if a < b { a } else { b }
}

// The greater of two numbers.
fn most(a: i128, b: i128) -> i128
    requires a_fits { unsigned_abs a ≤ TOTAL_MAX }
    requires b_fits { unsigned_abs b ≤ TOTAL_MAX }
    ensures first { a ≤ℤ result }
    ensures second { b ≤ℤ result }
    ensures within { unsigned_abs result ≤ TOTAL_MAX }
{
    if a < b { b } else { a }
}

impl Range {
    // The range of both.
    fn united(&self, other: &Range) -> Range
        ensures first { (n p : Triple) → IsAlong n self.now p → IsAlong n result p }
        ensures second { (n p : Triple) → IsAlong n other.now p → IsAlong n result p }
    {
        Range {
            low: least(self.low, other.low),
            high: most(self.high, other.high),
        }
    }

    // How far a position reaches.
    fn at(n: Wide, p: Wide) -> Range
        requires n_fits { IsWithin SPAN_MAX n }
        requires p_fits { IsWithin SPAN_MAX p }
        ensures { IsAlong n result p }
    {
        let here = product(n, p);
        Range {
            low: here,
            high: here,
        }
    }

    // How far a face reaches where it begins.
    fn of(n: Wide, f: &MovingFace) -> Range
        requires { IsWithin SPAN_MAX n }
        ensures c { IsAlong n result f.now.c.start }
        ensures d { IsAlong n result f.now.d.start }
        ensures e { IsAlong n result f.now.e.start }
    {
        let c = Range::at(n, f.c.start.wide());
        let d = Range::at(n, f.d.start.wide());
        let e = Range::at(n, f.e.start.wide());
        c.united(&d).united(&e)
    }
}

impl Slabs {
    /// Those of a face, by its box in a frame.
    pub(crate) fn of(f: &MovingFace, at: &LabelledBox, across: &Across) -> Slabs
        ensures { (frame : Frame) → IsFaceBoxIn frame f.now at.now
            → HasFace across.now result f.now }
    {
        Slabs {
            at: at.at,
            first: Range::of(across.first, f),
            second: Range::of(across.second, f),
            labels: at.labels,
        }
    }

    /// Those of all that have these or the others.
    pub(crate) fn united(&self, other: &Slabs) -> Slabs
        ensures first { (across : Across) (f : MovingFace) → HasFace across self.now f
            → HasFace across result f }
        ensures second { (across : Across) (f : MovingFace) → HasFace across other.now f
            → HasFace across result f }
    {
        Slabs {
            at: SmallBox::of(&self.at.extent().united(&other.at.extent())),
            first: self.first.united(&other.first),
            second: self.second.united(&other.second),
            labels: self.labels.common(&other.labels),
        }
    }
}
