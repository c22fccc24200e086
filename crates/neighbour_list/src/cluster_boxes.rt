//! Boxes of clusters of vertices in a motion: of their ways, and of their drifts from the reference points.
ghost use Rattle.std.specs.Prelude.{IfOk};
ghost use Rattle.grid_base.specs.declared.TheConstants.{EXTENT_MAX};
ghost use Rattle.grid_base.specs.Extents.{IsIn, IsInside};
ghost use Rattle.grid_base.specs.Triples.{IsWithin};
ghost use Rattle.pair_paths.specs.Bounds.{AreBoxesOf};
ghost use Rattle.neighbour_list.specs.Clusters.{HoldsWay, HoldsCluster};

use crate::reference::Reference;
use grid_base::{EXTENT_MAX, Extent, Items, NoMemory, Wide};
use pair_paths::{Frame, HasBoundsIn, Path, Paths};
use std::alloc::Global;

/// Boxes of the ways of some vertices, as a frame sees them, and of their drifts at the start and at the end.
#[derive(Clone, Copy)]
pub(crate) struct ClusterBoxes {
    pub(crate) swept: Extent,
    pub(crate) start: Extent,
    pub(crate) end: Extent,
}

// The box of one drift.
fn alone(d: Wide) -> Extent
    requires { IsWithin EXTENT_MAX d }
    ensures { IsIn result d }
{
    Extent::around(d, d)
}

// The boxes of one vertex.
fn boxes_of_way(path: &Path, k: &Reference, frame: &Frame) -> ClusterBoxes
    ensures { HoldsWay frame.now path.now k.now result }
{
    ClusterBoxes {
        swept: path.bounds_in(frame),
        start: alone(path.start.seen_from(k.at)),
        end: alone(path.end.seen_from(k.at)),
    }
}

impl ClusterBoxes {
    /// Boxes that have both.
    pub(crate) fn united(&self, other: &ClusterBoxes) -> ClusterBoxes
        ensures swept { IsInside self.now.swept result.swept }
        ensures start { IsInside self.now.start result.start }
        ensures end { IsInside self.now.end result.end }
        ensures other_swept { IsInside other.now.swept result.swept }
        ensures other_start { IsInside other.now.start result.start }
        ensures other_end { IsInside other.now.end result.end }
    {
        ClusterBoxes {
            swept: self.swept.united(&other.swept),
            start: self.start.united(&other.start),
            end: self.end.united(&other.end),
        }
    }
}

// Boxes of all these vertices, and of what is in the boxes before.
fn boxes_from<P: Paths>(
    refs: &[Reference],
    paths: &P,
    frame: &Frame,
    before: ClusterBoxes,
) -> ClusterBoxes
    ensures { HoldsCluster frame.now (P.motion paths.now) refs.now result }
{
    let mut all = before;
    for k in refs {
        let here = boxes_of_way(&paths.path_of(k.v), k, frame);
        all = all.united(&here);
    }
    all
}

// The boxes of a cluster.
fn boxes_of_cluster<P: Paths>(refs: &[Reference], paths: &P, frame: &Frame) -> ClusterBoxes
    ensures { HoldsCluster frame.now (P.motion paths.now) refs.now result }
{
    let nowhere = alone(Wide { x: 0, y: 0, z: 0 });
    let mut first = ClusterBoxes {
        swept: nowhere,
        start: nowhere,
        end: nowhere,
    };
    if let Some(k) = refs.first() {
        first = boxes_of_way(&paths.path_of(k.v), k, frame);
    }
    boxes_from(refs, paths, frame, first)
}

/// The boxes of clusters, in their order.
pub(crate) fn boxes_of<P: Paths>(
    alloc: Global,
    clusters: &[Items<Reference>],
    paths: &P,
    frame: &Frame,
) -> Result<Vec<ClusterBoxes>, NoMemory>
    ensures { IfOk result
        (λ boxes. AreBoxesOf (HoldsCluster frame.now (P.motion paths.now)) clusters.now boxes.items) }
{
    let mut boxes = Vec::new(alloc);
    for refs in clusters {
        boxes.push(boxes_of_cluster(refs.as_slice(), paths, frame))?;
    }
    Ok(boxes)
}
