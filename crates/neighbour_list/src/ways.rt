//! The ways of clusters, in a tree that finds those that do not keep apart.
ghost use Rattle.std.specs.Prelude.{IfOk};
ghost use Rattle.pair_paths.specs.Bounds.{AreBoxes, AreBoxesOf};
ghost use Rattle.neighbour_list.specs.Clusters.{IsWayBox};

use crate::cluster_boxes::ClusterBoxes;
use box_tree::{BoxTree, LabelledBox, Labels, SmallBox};
use grid_base::NoMemory;
use std::alloc::Global;

// The box of a cluster's ways, known by no number.
fn way_box(b: &ClusterBoxes) -> LabelledBox
    ensures { IsWayBox b.now result }
{
    LabelledBox {
        at: SmallBox::of(&b.swept),
        labels: Labels {
            first: 0,
            second: 0,
            third: 0,
        },
    }
}

// The same of each of these clusters, in their order.
fn way_boxes(alloc: Global, boxes: &[ClusterBoxes]) -> Result<Vec<LabelledBox>, NoMemory>
    ensures { IfOk result (λ ways. AreBoxesOf IsWayBox boxes.now ways.items) }
{
    let mut ways = Vec::new(alloc);
    for b in boxes {
        ways.push(way_box(b))?;
    }
    Ok(ways)
}

/// The tree of the boxes of these clusters' ways.
pub(crate) fn tree_of_ways(alloc: Global, boxes: &[ClusterBoxes]) -> Result<BoxTree, NoMemory>
    ensures { IfOk result (λ tree. AreBoxes IsWayBox boxes.now tree) }
{
    let ways = way_boxes(alloc, boxes)?;
    let tree = BoxTree::of(alloc, &ways)?;
    Ok(tree)
}
