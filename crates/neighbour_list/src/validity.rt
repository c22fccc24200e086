//! Whether a list serves in a motion: whether each two clusters keep apart or drift alike.
ghost use Rattle.std.specs.Prelude.{◌≡◌, ◌≤◌, ◌≤ℤ◌, ◌+ℤ◌, pos, unsigned_abs, slice_get, IsTrue, IfOk, IfSome};
ghost use Rattle.std.specs.List.{All};
ghost use Rattle.grid_base.specs.declared.TheConstants.{EXTENT_MAX};
ghost use Rattle.pair_paths.specs.Bounds.{AreBoxes};
ghost use Rattle.neighbour_list.specs.Drift.{IsNarrow};
ghost use Rattle.neighbour_list.specs.Clusters.{AreNarrowTogether, BoxesServe, ClustersServe, HasDriftsOf, IsWayBox};

use crate::cluster_boxes::{ClusterBoxes, boxes_of};
use crate::reference::Reference;
use crate::ways::tree_of_ways;
use box_tree::BoxTree;
use grid_base::{EXTENT_MAX, Extent, Items, NoMemory};
use pair_paths::{Frame, Paths};
use std::alloc::Global;

// Whether a side from the one number to the other is at most as long as the skin.
fn is_short(skin: u32, low: i128, high: i128) -> bool
    requires { unsigned_abs low ≤ EXTENT_MAX }
    ensures { IsTrue result → high ≤ℤ (low +ℤ pos skin) }
{
    high <= low + i128::from(skin)
}

// Whether no side of the box is longer than the skin.
fn is_narrow(skin: u32, e: &Extent) -> bool
    ensures { IsTrue result → IsNarrow skin e.now }
{
    if !is_short(skin, e.low.x, e.high.x) {
        return false;
    }
    if !is_short(skin, e.low.y, e.high.y) {
        return false;
    }
    is_short(skin, e.low.z, e.high.z)
}

// Whether the least box that has both is narrow.
fn are_narrow(skin: u32, a: &Extent, b: &Extent) -> bool
    ensures { IsTrue result → AreNarrowTogether skin a.now b.now }
{
    is_narrow(skin, &a.united(b))
}

// Whether two clusters drift alike at the start and at the end.
fn drift_alike(skin: u32, a: &ClusterBoxes, b: &ClusterBoxes) -> bool
    ensures { IsTrue result → BoxesServe skin a.now b.now }
{
    are_narrow(skin, &a.start, &b.start) && are_narrow(skin, &a.end, &b.end)
}

// The same of a cluster and the one at a place.
fn drifts_as_one_at(skin: u32, a: &ClusterBoxes, boxes: &[ClusterBoxes], k: u64) -> bool
    ensures { IsTrue result → IfSome (slice_get boxes.now k) (BoxesServe skin a.now) }
{
    match boxes.get(k as usize) {
        Some(b) => drift_alike(skin, a, b),
        None => true,
    }
}

// The same of a cluster and each of those at these places.
fn drifts_as_all_at(skin: u32, a: &ClusterBoxes, boxes: &[ClusterBoxes], places: &[u64]) -> bool
    ensures { IsTrue result →
        All (λ k. IfSome (slice_get boxes.now k) (BoxesServe skin a.now)) places.now }
{
    for k in places {
        if !drifts_as_one_at(skin, a, boxes, *k) {
            return false;
        }
    }
    true
}

// Whether a cluster keeps apart from each of all clusters or drifts as it does: the tree of their ways tells from which it does
// not keep apart. Sets `places` to where these stand.
fn serves_with_all(
    skin: u32,
    a: &ClusterBoxes,
    boxes: &[ClusterBoxes],
    ways: &BoxTree,
    places: &mut Vec<u64>,
) -> Result<bool, NoMemory>
    requires { AreBoxes IsWayBox boxes.now ways.now }
    ensures { IfOk result (λ serves. IsTrue serves → All (BoxesServe skin a.now) boxes.now) }
{
    ways.overlapping_apart(a.swept, 0, 0, places)?;
    Ok(drifts_as_all_at(skin, a, boxes, places))
}

// The same of each of the clusters.
fn all_serve(alloc: Global, skin: u32, boxes: &[ClusterBoxes]) -> Result<bool, NoMemory>
    ensures { IfOk result
        (λ serve. IsTrue serve → All (λ a. All (BoxesServe skin a) boxes.now) boxes.now) }
{
    let ways = tree_of_ways(alloc, boxes)?;
    let mut places = Vec::new(alloc);
    for a in boxes {
        let serves = serves_with_all(skin, a, boxes, &ways, &mut places)?;
        if !serves {
            return Ok(false);
        }
    }
    Ok(true)
}

// Boxes that have the drifts of all these clusters, and what is in the boxes before.
fn united_from(boxes: &[ClusterBoxes], before: ClusterBoxes) -> ClusterBoxes
    ensures { All (λ b. HasDriftsOf b result) boxes.now }
{
    let mut all = before;
    for b in boxes {
        all = all.united(b);
    }
    all
}

// Whether all clusters drift alike, as one box of all their drifts tells. It is soon seen, and says nothing where it is not so.
fn all_drift_alike(skin: u32, boxes: &[ClusterBoxes]) -> bool
    ensures { IsTrue result → All (λ a. All (BoxesServe skin a) boxes.now) boxes.now }
{
    let Some(first) = boxes.first() else {
        return false;
    };
    let all = united_from(boxes, *first);
    if !is_narrow(skin, &all.start) {
        return false;
    }
    is_narrow(skin, &all.end)
}

/// Whether of each two clusters the ways have no common point, as the frame sees them, or the vertices drift alike up to the
/// skin, at the start of the motion and at its end.
pub(crate) fn clusters_serve<P: Paths>(
    alloc: Global,
    skin: u32,
    clusters: &[Items<Reference>],
    paths: &P,
    frame: &Frame,
) -> Result<bool, NoMemory>
    ensures { IfOk result
        (λ serve. IsTrue serve → ClustersServe skin frame.now (P.motion paths.now) clusters.now) }
{
    let boxes = boxes_of(alloc, clusters, paths, frame)?;
    if all_drift_alike(skin, &boxes) {
        return Ok(true);
    }
    all_serve(alloc, skin, &boxes)
}
