//! The pairs that do not pass where vertices go by shifts, found by a list.
ghost use Rattle.std.specs.Prelude.{◌≡◌, ◌≤◌, IsTrue, IfOk, IfSome};
ghost use Rattle.std.specs.List.{All};
ghost use Rattle.grid_base.specs.declared.TheConstants.{DEPTH_MAX};
ghost use Rattle.grid_decided.specs.Decided.{meets_exactly};
ghost use Rattle.mesh_base.specs.Failing.{failing};
ghost use Rattle.mesh_base.specs.Placements.{IsClearMesh};
ghost use Rattle.mesh_base.specs.Shifts.{NameLive, end_in_box};
ghost use Rattle.pair_paths.specs.Paths.{AreKnown};
ghost use Rattle.pair_scan.specs.Answers.{AreAllFailing, TellsWhetherAllPass};
ghost use Rattle.pair_scan.specs.Found.{has_none, AreFound};
ghost use Rattle.neighbour_list.specs.Listed.{IsApart, IsListOf, fails, failing_in};

use crate::five_paths::{FivePaths, paths_of_pair};
use crate::listed::ListedPair;
use crate::neighbour_list::NeighbourList;
use crate::pair_test::do_pass;
use crate::validity::clusters_serve;
use grid_base::{DEPTH_MAX, NoMemory, Wide};
use mesh_base::{ShiftOf, Shifts, Surface};
use pair_paths::{Frame, KnownPaths, PathOf, Paths, Position, paths_of};
use pair_scan::{Pairs, ShiftedVertices};
use std::alloc::Global;

// Whether a listed pair does not pass, by paths that are asked for.
#[cold]
#[inline(never)]
fn fails_asked<P: Paths>(p: &ListedPair, paths: &P, depth: u8) -> bool
    requires depth_fits { depth ≤ DEPTH_MAX }
    requires apart { IsApart (P.motion paths.now).start p.now }
    ensures { result ≡ fails depth (P.motion paths.now) p.now }
{
    let a = paths.path_of(p.name.a);
    let b = paths.path_of(p.name.b);
    let c = paths.path_of(p.corners.first);
    let d = paths.path_of(p.corners.second);
    let e = paths.path_of(p.corners.third);
    let five = FivePaths {
        a: &a,
        b: &b,
        c: &c,
        d: &d,
        e: &e,
    };
    !do_pass(&five, depth)
}

// Whether a listed pair does not pass.
#[inline(always)]
fn fails<P: Paths>(p: &ListedPair, known: &[PathOf], paths: &P, depth: u8) -> bool
    requires depth_fits { depth ≤ DEPTH_MAX }
    requires apart { IsApart (P.motion paths.now).start p.now }
    requires known { AreKnown (P.motion paths.now) known.now }
    ensures { result ≡ fails depth (P.motion paths.now) p.now }
{
    match paths_of_pair(p, known) {
        Some(five) => !do_pass(&five, depth),
        None => fails_asked(p, paths, depth),
    }
}

// A frame that goes by the shift in the middle of the list.
fn middle_frame(by: &[ShiftOf]) -> Frame {
    let (x, y, z) = match by.get(by.len() / 2) {
        Some(s) => (s.by.x, s.by.y, s.by.z),
        None => (0, 0, 0),
    };
    Frame {
        end: Position::of(Wide {
            x: i128::from(x),
            y: i128::from(y),
            z: i128::from(z),
        }),
    }
}

// Whether there is no pair.
fn has_none(pairs: &Pairs) -> bool
    ensures { result ≡ has_none pairs.now }
{
    pairs.len() == 0
}

// The listed pairs that do not pass, in order; where it ends early, up to the first.
fn failing_in<P: Paths>(
    alloc: Global,
    pairs: &[ListedPair],
    known: &[PathOf],
    paths: &P,
    depth: u8,
    ends_early: bool,
) -> Result<Pairs, NoMemory>
    requires depth_fits { depth ≤ DEPTH_MAX }
    requires known { AreKnown (P.motion paths.now) known.now }
    requires apart { All (IsApart (P.motion paths.now).start) pairs.now }
    ensures { IfOk result
        (AreFound ends_early (failing_in depth (P.motion paths.now) pairs.now)) }
{
    let mut found = Pairs::new(alloc);
    for p in pairs {
        if fails(p, known, paths, depth) {
            found.push(p.name)?;
            if ends_early {
                return Ok(found);
            }
        }
    }
    Ok(found)
}

// The pairs of the mesh that do not pass, by the list; None where the list does not serve.
fn scan_by_list<S: Surface>(
    alloc: Global,
    mesh: &S,
    by: &[ShiftOf],
    depth: u8,
    list: &NeighbourList,
    ends_early: bool,
) -> Result<Option<Pairs>, NoMemory>
    requires named { NameLive (S.mesh mesh.now) by.now }
    requires in_box { IsTrue (end_in_box (S.mesh mesh.now) by.now) }
    requires depth { depth ≤ DEPTH_MAX }
    requires clear { IsClearMesh (S.mesh mesh.now) }
    requires list { IsListOf (S.mesh mesh.now) list.now }
    ensures { IfOk result (λ o. IfSome o
        (AreFound ends_early (failing meets_exactly (S.mesh mesh.now) by.now depth))) }
{
    let shifted = ShiftedVertices { mesh, by };
    let known = paths_of(alloc, mesh, &shifted)?;
    let paths = KnownPaths {
        paths: &shifted,
        known: known.as_slice(),
    };
    let frame = middle_frame(by);
    if !clusters_serve(alloc, list.skin, list.clusters.as_slice(), &paths, &frame)? {
        return Ok(None);
    }
    let found = failing_in(
        alloc,
        list.pairs.as_slice(),
        known.as_slice(),
        &paths,
        depth,
        ends_early,
    )?;
    Ok(Some(found))
}

/// All pairs of a clear mesh that do not pass where each vertex goes from its point by its shift, as `pair_scan::failing`
/// tells them, by a list of this mesh; None where the list does not serve: where the ways of two clusters of vertices have a
/// common point, and their drifts from the reference points, at the start or at the end, lie farther apart than the skin along
/// some axis. Refuses only where there is no memory.
pub fn failing_by_list<S: Surface>(
    alloc: Global,
    mesh: &S,
    by: &Shifts,
    depth: u8,
    list: &NeighbourList,
) -> Result<Option<Pairs>, NoMemory>
    requires named { NameLive (S.mesh mesh.now) by.now }
    requires in_box { IsTrue (end_in_box (S.mesh mesh.now) by.now) }
    requires depth { depth ≤ DEPTH_MAX }
    requires clear { IsClearMesh (S.mesh mesh.now) }
    requires list { IsListOf (S.mesh mesh.now) list.now }
    ensures { IfOk result (λ o. IfSome o (AreAllFailing (S.mesh mesh.now) by.now depth)) }
{
    scan_by_list(alloc, mesh, by.as_slice(), depth, list, false)
}

/// Whether all pairs of a clear mesh pass where each vertex goes from its point by its shift, by a list of this mesh; None
/// where the list does not serve. It ends at the first pair that does not pass. Refuses only where there is no memory.
pub fn all_pass_by_list<S: Surface>(
    alloc: Global,
    mesh: &S,
    by: &Shifts,
    depth: u8,
    list: &NeighbourList,
) -> Result<Option<bool>, NoMemory>
    requires named { NameLive (S.mesh mesh.now) by.now }
    requires in_box { IsTrue (end_in_box (S.mesh mesh.now) by.now) }
    requires depth { depth ≤ DEPTH_MAX }
    requires clear { IsClearMesh (S.mesh mesh.now) }
    requires list { IsListOf (S.mesh mesh.now) list.now }
    ensures { IfOk result (λ o. IfSome o (TellsWhetherAllPass (S.mesh mesh.now) by.now depth)) }
{
    match scan_by_list(alloc, mesh, by.as_slice(), depth, list, true)? {
        Some(found) => Ok(Some(has_none(&found))),
        None => Ok(None),
    }
}
