//! The test of five positions and the written test of a motion, with no tracker.
ghost use Rattle.std.specs.Prelude.{◌≡◌, ◌≤◌, MatchOption, IsTrue, ◌↔◌};
ghost use Rattle.grid_base.specs.declared.TheConstants.{BOX, DEPTH_MAX, HALF_MAX};
ghost use Rattle.grid_base.specs.Components.{FitWithin};
ghost use Rattle.grid_base.specs.Meeting.{MeetAt, AreWithin};
ghost use Rattle.grid_base.specs.Motion.{NeverMeet};
ghost use Rattle.grid_base.specs.Separation.{Passes};
ghost use Rattle.grid_base.specs.Triples.{IsWithin};
ghost use Rattle.track_held.specs.Given.{position_in};
ghost use Rattle.topo_library.specs.Alone.{IsInBox, AreInBox, places, HasTested, CanPass};

use crate::codes::{DONE, RANGE};
use grid_base::{DEPTH_MAX, Point, Positions, Wide};
use grid_meets::meets;
use motion_test::{Pair, passes};
use track_held::GivenPoint;

/// The ends of an edge, `a` and `b`, and the corners of a triangle, `c`, `d` and `e`.
#[repr(C)]
#[derive(Clone, Copy, Debug, PartialEq, Eq)]
pub struct TopoFive {
    pub a: GivenPoint,
    pub b: GivenPoint,
    pub c: GivenPoint,
    pub d: GivenPoint,
    pub e: GivenPoint,
}

// Where a point stands; None where it is not in the box.
fn place(p: GivenPoint) -> Option<Wide>
    ensures { MatchOption result (¬ IsInBox p)
        (λ at. IsInBox p × (at ≡ position_in p) × IsWithin HALF_MAX at) }
{
    let point = Point::new(p.x, p.y, p.z)?;
    Some(point.wide())
}

// Where five points stand; None where one of them is not in the box.
fn places(five: &TopoFive) -> Option<Positions>
    ensures { MatchOption result (¬ AreInBox five.now)
        (λ at. AreInBox five.now × (at ≡ places five.now) × AreWithin HALF_MAX at) }
{
    let a = place(five.a)?;
    let b = place(five.b)?;
    let c = place(five.c)?;
    let d = place(five.d)?;
    let e = place(five.e)?;
    Some(Positions { a, b, c, d, e })
}

/// Whether an edge and a triangle share a position, 1 or 0.
pub(crate) fn tell_meets(five: &TopoFive, answer: &mut u32) -> u32
    ensures { HasTested (AreInBox five.now) (MeetAt (places five.now))
        answer.old answer.new result }
{
    let Some(at) = places(five) else {
        return RANGE;
    };
    *answer = u32::from(meets(at.a, at.b, at.c, at.d, at.e));
    DONE
}

// Whether a motion from five positions to five passes the written test to a depth.
fn pass_at(s: &Positions, t: &Positions, depth: u8) -> bool
    requires deep { depth ≤ DEPTH_MAX }
    requires from { AreWithin HALF_MAX s.now }
    requires to { AreWithin HALF_MAX t.now }
    ensures exact { IsTrue result ↔ Passes depth s.now t.now }
    ensures clear { IsTrue result → NeverMeet s.now t.now }
{
    let pair = Pair {
        start: [s.a, s.b, s.c, s.d, s.e],
        end: [t.a, t.b, t.c, t.d, t.e],
    };
    passes(&pair, depth)
}

/// Whether a motion of an edge and a triangle passes the written test to a depth, 1 or 0.
pub(crate) fn tell_passes(start: &TopoFive, end: &TopoFive, depth: u32, answer: &mut u32) -> u32
    ensures tests { HasTested (CanPass depth start.now end.now)
        (Passes depth (places start.now) (places end.now)) answer.old answer.new result }
    ensures clear { result ≡ 0 → answer.new ≡ 1 →
        NeverMeet (places start.now) (places end.now) }
{
    if depth > u32::from(DEPTH_MAX) {
        return RANGE;
    }
    let Some(s) = places(start) else {
        return RANGE;
    };
    let Some(t) = places(end) else {
        return RANGE;
    };
    *answer = u32::from(pass_at(&s, &t, depth as u8));
    DONE
}
