//! The written test of a pair that does not meet where it begins: what takes the least is looked at first.
ghost use Rattle.std.specs.Prelude.{◌≡◌, ◌≤◌, IsTrue};
ghost use Rattle.grid_base.specs.declared.TheConstants.{DEPTH_MAX, HALF_MAX};
ghost use Rattle.grid_base.specs.Meeting.{AreWithin, MeetAt};
ghost use Rattle.grid_base.specs.Separation.{MoveTogether};
ghost use Rattle.grid_base.specs.SeparationTests.{passes};
ghost use Rattle.grid_base.specs.Triples.{minus};
ghost use Rattle.grid_decided.specs.Decided.{meets_exactly};
ghost use Rattle.motion_test.specs.Pairs.{positions_of};
ghost use Rattle.neighbour_list.specs.FivePaths.{starts_of, ends_of};

use crate::axes::an_axis_keeps_apart;
use crate::directions::a_direction_keeps_apart;
use crate::five_paths::FivePaths;
use grid_base::{DEPTH_MAX, HALF_MAX, Wide};
use motion_test::{Pair, passes};
use pair_paths::Path;

// The way of a vertex.
#[inline(always)]
fn way(path: &Path) -> Wide
    ensures { result ≡ minus path.now.end path.now.start }
{
    path.end.seen_from(path.start)
}

// Whether two ways are one.
#[inline(always)]
fn is_same(a: Wide, b: Wide) -> bool
    ensures { IsTrue result → a ≡ b }
{
    a == b
}

// Whether the edge and the face move by one shift.
#[inline(always)]
fn go_as_one(p: &FivePaths<'_>) -> bool
    ensures { IsTrue result → MoveTogether (starts_of p.now) (ends_of p.now) }
{
    let by = way(p.a);
    if !is_same(way(p.b), by) {
        return false;
    }
    if !is_same(way(p.c), by) {
        return false;
    }
    if !is_same(way(p.d), by) {
        return false;
    }
    is_same(way(p.e), by)
}

// Where the five start.
fn starts(p: &FivePaths<'_>) -> [Wide; 5]
    ensures value { positions_of result ≡ starts_of p.now }
    ensures within { AreWithin HALF_MAX (positions_of result) }
{
    [
        p.a.start.wide(),
        p.b.start.wide(),
        p.c.start.wide(),
        p.d.start.wide(),
        p.e.start.wide(),
    ]
}

// Where they end.
fn ends(p: &FivePaths<'_>) -> [Wide; 5]
    ensures value { positions_of result ≡ ends_of p.now }
    ensures within { AreWithin HALF_MAX (positions_of result) }
{
    [
        p.a.end.wide(),
        p.b.end.wide(),
        p.c.end.wide(),
        p.d.end.wide(),
        p.e.end.wide(),
    ]
}

// The whole test.
#[cold]
#[inline(never)]
fn do_pass_whole(p: &FivePaths<'_>, depth: u8) -> bool
    requires { depth ≤ DEPTH_MAX }
    ensures { result ≡ passes meets_exactly depth (starts_of p.now) (ends_of p.now) }
{
    let pair = Pair {
        start: starts(p),
        end: ends(p),
    };
    passes(&pair, depth)
}

// The test of a pair that no axis keeps apart.
#[inline(never)]
fn do_pass_near(p: &FivePaths<'_>, depth: u8) -> bool
    requires depth_fits { depth ≤ DEPTH_MAX }
    requires apart { ¬ (MeetAt (starts_of p.now)) }
    ensures { result ≡ passes meets_exactly depth (starts_of p.now) (ends_of p.now) }
{
    if go_as_one(p) {
        return true;
    }
    if a_direction_keeps_apart(p) {
        return true;
    }
    do_pass_whole(p, depth)
}

/// Whether an edge and a face that do not meet where they begin pass the test. Most are kept apart by an axis; of the others
/// what moves by one shift passes, and one of three directions keeps most of the rest apart.
#[inline(always)]
pub(crate) fn do_pass(p: &FivePaths<'_>, depth: u8) -> bool
    requires depth_fits { depth ≤ DEPTH_MAX }
    requires apart { ¬ (MeetAt (starts_of p.now)) }
    ensures { result ≡ passes meets_exactly depth (starts_of p.now) (ends_of p.now) }
{
    if an_axis_keeps_apart(p) {
        return true;
    }
    do_pass_near(p, depth)
}
