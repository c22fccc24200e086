//! Whether one of three directions keeps an edge and a face apart, each of two or five of their positions at the start. Of the
//! pairs that no axis keeps apart, one of these mostly does.
ghost use Rattle.std.specs.Prelude.{◌≡◌, ◌≤◌, unsigned_abs, IsTrue};
ghost use Rattle.std.specs.List.{Any};
ghost use Rattle.grid_base.specs.declared.narrow.TheConstants.{NORMAL_MAX, TOTAL_MAX};
ghost use Rattle.grid_base.specs.Separation.{KeepsApart, directions};
ghost use Rattle.grid_base.specs.Triples.{IsWithin, cross, dot, minus};
ghost use Rattle.neighbour_list.specs.FivePaths.{starts_of, ends_of};

use crate::five_paths::FivePaths;
use crate::heights::{are_above, are_below};
use grid_base::Wide;
use grid_base::narrow::{NORMAL_MAX, TOTAL_MAX, normal, product, span};
use pair_paths::Position;

// How far a position lies along a direction.
#[inline(always)]
fn height(n: Wide, p: Position) -> i128
    requires { IsWithin NORMAL_MAX n }
    ensures value { result ≡ dot n p }
    ensures within { unsigned_abs result ≤ TOTAL_MAX }
{
    product(n, p.wide())
}

// Whether a direction keeps the edge on one side of the face, at the start and at the end.
#[inline(always)]
fn keeps_apart(n: Wide, p: &FivePaths<'_>) -> bool
    requires { IsWithin NORMAL_MAX n }
    ensures { IsTrue result → KeepsApart (starts_of p.now) (ends_of p.now) n }
{
    if are_below(
        height(n, p.a.start),
        height(n, p.b.start),
        height(n, p.c.start),
        height(n, p.d.start),
        height(n, p.e.start),
    ) {
        return are_below(
            height(n, p.a.end),
            height(n, p.b.end),
            height(n, p.c.end),
            height(n, p.d.end),
            height(n, p.e.end),
        );
    }
    if are_above(
        height(n, p.a.start),
        height(n, p.b.start),
        height(n, p.c.start),
        height(n, p.d.start),
        height(n, p.e.start),
    ) {
        return are_above(
            height(n, p.a.end),
            height(n, p.b.end),
            height(n, p.c.end),
            height(n, p.d.end),
            height(n, p.e.end),
        );
    }
    false
}

// From the edge's first end to the face's first corner.
#[inline(always)]
fn to_first_corner(p: &FivePaths<'_>) -> Wide
    ensures value { let s = starts_of p.now in result ≡ minus s.c s.a }
    ensures within { IsWithin NORMAL_MAX result }
{
    span(p.c.start.wide(), p.a.start.wide())
}

// Across the edge and the face's first side.
#[inline(always)]
fn across_first_side(p: &FivePaths<'_>) -> Wide
    ensures value { let s = starts_of p.now in result ≡ cross (minus s.b s.a) (minus s.d s.c) }
    ensures within { IsWithin NORMAL_MAX result }
{
    normal(
        span(p.b.start.wide(), p.a.start.wide()),
        span(p.d.start.wide(), p.c.start.wide()),
    )
}

// Across the edge and the face's last side.
#[inline(always)]
fn across_last_side(p: &FivePaths<'_>) -> Wide
    ensures value { let s = starts_of p.now in result ≡ cross (minus s.b s.a) (minus s.c s.e) }
    ensures within { IsWithin NORMAL_MAX result }
{
    normal(
        span(p.b.start.wide(), p.a.start.wide()),
        span(p.c.start.wide(), p.e.start.wide()),
    )
}

/// Whether one of the three directions does.
#[inline(always)]
pub(crate) fn a_direction_keeps_apart(p: &FivePaths<'_>) -> bool
    ensures { IsTrue result → let s = starts_of p.now in let t = ends_of p.now in
        Any (KeepsApart s t) (directions s t) }
{
    if keeps_apart(to_first_corner(p), p) {
        return true;
    }
    if keeps_apart(across_last_side(p), p) {
        return true;
    }
    keeps_apart(across_first_side(p), p)
}
