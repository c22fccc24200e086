//! The written test of a motion: directions that keep an edge and a triangle apart, and halves of
//! the time.
#![tactic(auto)]

mod axes;
mod bisection;
mod direction_list;
mod heights;
mod one_direction;
mod side;
mod small;
mod some_direction;

ghost use Rattle.std.specs.Prelude.{◌≡◌, ◌↔◌, ◌≤◌, IsTrue};
ghost use Rattle.grid_base.specs.Meeting.{AreWithin};
ghost use Rattle.grid_base.specs.Motion.{NeverMeet, NeverMeetAfterStart, NeverMeetBeforeEnd};
ghost use Rattle.grid_base.specs.Separation.{AreSeparated, MoveTogether, Passes, Opens, Closes};
ghost use Rattle.motion_test.specs.Pairs.{positions_of, start_of, end_of};

pub use axes::axis_keeps_apart;
pub use bisection::{double, middle};
use bisection::{opens_at, separated_at};
pub use direction_list::directions;
use grid_base::{DEPTH_MAX, HALF_MAX, Positions, WIDE_MAX, Wide};
use grid_meets::meets;
pub use one_direction::{brings_together, keeps_apart, takes_apart};

/// An edge and a triangle that move in straight lines. At the start and at the end it has five
/// positions: the edge's two ends, and then the triangle's three corners. They are in half units,
/// up to `HALF_MAX`.
#[derive(Clone, Copy)]
pub struct Pair {
    /// The positions at the start.
    pub start: [Wide; 5],
    /// The positions at the end.
    pub end: [Wide; 5],
}

/// Whether the pair is separated: one of the 23 directions keeps the edge strictly on one side of
/// the triangle at the start and at the end; or, where depth is left, both halves of the motion are
/// separated with one depth less. Then it meets at no fraction of the motion. Separating axes after
/// El Topo (Brochu and Bridson 2009).
pub fn separated(p: &Pair, depth: u8) -> bool
    requires depth_fits { depth ≤ DEPTH_MAX }
    requires start_fits { AreWithin HALF_MAX (start_of p.now) }
    requires end_fits { AreWithin HALF_MAX (end_of p.now) }
    ensures exact { IsTrue result ↔ AreSeparated depth (start_of p.now) (end_of p.now) }
    ensures clear { IsTrue result → NeverMeet (start_of p.now) (end_of p.now) }
{
    separated_at(&positions(&p.start), &positions(&p.end), depth, true, true)
}

/// Whether the pair passes: it is separated to the depth, or its five positions move by one shift
/// and do not meet at the start. Then it meets at no fraction of the motion.
pub fn passes(p: &Pair, depth: u8) -> bool
    requires depth_fits { depth ≤ DEPTH_MAX }
    requires start_fits { AreWithin HALF_MAX (start_of p.now) }
    requires end_fits { AreWithin HALF_MAX (end_of p.now) }
    ensures exact { IsTrue result ↔ Passes depth (start_of p.now) (end_of p.now) }
    ensures clear { IsTrue result → NeverMeet (start_of p.now) (end_of p.now) }
{
    passes_at(p, depth)
}

/// Whether the pair opens: one of the 23 directions has the edge weakly on one side at the start
/// and strictly there at the end; or, where depth is left, the first half opens and the second is
/// separated, with one depth less. Then it meets at no fraction above zero.
pub fn opens(p: &Pair, depth: u8) -> bool
    requires depth_fits { depth ≤ DEPTH_MAX }
    requires start_fits { AreWithin HALF_MAX (start_of p.now) }
    requires end_fits { AreWithin HALF_MAX (end_of p.now) }
    ensures exact { IsTrue result ↔ Opens depth (start_of p.now) (end_of p.now) }
    ensures clear { IsTrue result → NeverMeetAfterStart (start_of p.now) (end_of p.now) }
{
    opens_at(&positions(&p.start), &positions(&p.end), depth, true)
}

/// Whether the pair closes: with its start and its end exchanged it opens. Then it meets at no
/// fraction below one.
pub fn closes(p: &Pair, depth: u8) -> bool
    requires depth_fits { depth ≤ DEPTH_MAX }
    requires start_fits { AreWithin HALF_MAX (start_of p.now) }
    requires end_fits { AreWithin HALF_MAX (end_of p.now) }
    ensures exact { IsTrue result ↔ Closes depth (start_of p.now) (end_of p.now) }
    ensures clear { IsTrue result → NeverMeetBeforeEnd (start_of p.now) (end_of p.now) }
{
    opens_at(&positions(&p.end), &positions(&p.start), depth, true)
}

// Whether the pair passes to the depth. What moves as one passes exactly where it does not meet at
// the start, so it is asked for no direction.
fn passes_at(p: &Pair, depth: u8) -> bool
    requires depth_fits { depth ≤ DEPTH_MAX }
    requires start_fits { AreWithin HALF_MAX (start_of p.now) }
    requires end_fits { AreWithin HALF_MAX (end_of p.now) }
    ensures { IsTrue result ↔ Passes depth (start_of p.now) (end_of p.now) }
{
    let s = positions(&p.start);
    let t = positions(&p.end);
    if moves_together(&s, &t) {
        return !meets(s.a, s.b, s.c, s.d, s.e);
    }
    separated_at(&s, &t, depth, true, true)
}

/// Whether the five positions move by one shift.
pub fn moves_together(s: &Positions, t: &Positions) -> bool
    requires s_fits { AreWithin WIDE_MAX s.now }
    requires t_fits { AreWithin WIDE_MAX t.now }
    ensures { IsTrue result ↔ MoveTogether s.now t.now }
{
    let shift = t.a.minus(s.a);
    if !same(t.b.minus(s.b), shift) {
        return false;
    }
    if !same(t.c.minus(s.c), shift) {
        return false;
    }
    if !same(t.d.minus(s.d), shift) {
        return false;
    }
    same(t.e.minus(s.e), shift)
}

// Whether two shifts are one.
fn same(a: Wide, b: Wide) -> bool
    ensures { IsTrue result ↔ (a ≡ b) }
{
    a == b
}

// The five positions of a list.
fn positions(p: &[Wide; 5]) -> Positions
    ensures { result ≡ positions_of p.now }
{
    Positions {
        a: p[0],
        b: p[1],
        c: p[2],
        d: p[3],
        e: p[4],
    }
}
