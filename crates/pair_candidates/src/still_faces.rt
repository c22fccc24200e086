//! Faces that all go with a frame, in a tree that leaves out those that a direction parts from an edge.
ghost use Rattle.std.specs.Prelude.{◌≡◌, ℕ, List, IsTrue, IfOk, OnOk, Some, slice_get};
ghost use Rattle.std.specs.List.Sorted.{IsStrictlySortedBy};
ghost use Rattle.std.specs.Ordering.{nat_cmp};
ghost use Rattle.cell_grid.specs.Filed.{has};
ghost use Rattle.grid_base.specs.declared.narrow.TheConstants.{SPAN_MAX};
ghost use Rattle.grid_base.specs.Triples.{IsWithin};
ghost use Rattle.pair_paths.specs.declared.Frame.{Frame};
ghost use Rattle.pair_paths.specs.declared.MovingFace.{MovingFace};
ghost use Rattle.pair_candidates.specs.Slabs.{GoesWith, EdgeGoesWith, FaceGoesWith, AreStill, AreFound};

use crate::across::Across;
use crate::separation::SlabQuery;
use crate::slab_tree::{SlabBuilder, SlabTree, find_if, grow};
use box_tree::{SmallBox, places_along_curve};
use grid_base::narrow::SPAN_MAX;
use grid_base::{Extent, NoMemory, Wide};
use pair_paths::{Frame, MovingEdge, MovingFace, Path, boxes_in};
use std::alloc::Global;

/// A tree of faces, if there are any, and the two directions along which it knows how far they reach.
#[derive(Drop)]
pub(crate) struct StillFaces {
    across: Across,
    tree: Option<SlabTree>,
}

// Whether the path goes by the shift of the frame.
fn goes_with(w: &Path, frame: &Frame) -> bool
    ensures { IsTrue result → GoesWith frame.now w.now }
{
    w.end.seen_from(w.start) == frame.end.wide()
}

/// Whether both ends of the edge do.
pub(crate) fn edge_goes_with(e: &MovingEdge, frame: &Frame) -> bool
    ensures { IsTrue result → EdgeGoesWith frame.now e.now }
{
    goes_with(&e.first, frame) && goes_with(&e.second, frame)
}

// Whether all corners of the face do.
fn face_goes_with(f: &MovingFace, frame: &Frame) -> bool
    ensures { IsTrue result → FaceGoesWith frame.now f.now }
{
    goes_with(&f.c, frame) && goes_with(&f.d, frame) && goes_with(&f.e, frame)
}

/// Whether all corners of all faces do.
pub(crate) fn all_go_with(faces: &[MovingFace], frame: &Frame) -> bool
    ensures { IsTrue result → (i : ℕ) (f : MovingFace) → slice_get faces.now i ≡ Some f
        → FaceGoesWith frame.now f }
{
    for f in faces {
        if !face_goes_with(f, frame) {
            return false;
        }
    }
    true
}

/// Puts the numbers in order, each of them once.
pub(crate) fn rising(list: &mut Vec<u64>)
    ensures sorted { IsStrictlySortedBy nat_cmp list.new.items }
    ensures same { (i : ℕ) → has i list.new.items ≡ has i list.old.items }
{
    list.sort_unstable();
    list.dedup();
}

impl StillFaces {
    /// The tree of faces that all go with the frame. The two directions are across a way; only speed depends on it.
    pub(crate) fn of(
        alloc: Global,
        faces: &[MovingFace],
        frame: &Frame,
        way: Wide,
    ) -> Result<StillFaces, NoMemory>
        requires way_fits { IsWithin SPAN_MAX way }
        requires going { (i : ℕ) (f : MovingFace) → slice_get faces.now i ≡ Some f
            → FaceGoesWith frame.now f }
        ensures { IfOk result (AreStill frame.now faces.now) }
    {
        let across = Across::of(way);
        let boxes = boxes_in(alloc, faces, frame)?;
        let order = places_along_curve(alloc, &boxes)?;
        let builder = SlabBuilder {
            faces,
            boxes: &boxes,
            frame,
            across: &across,
        };
        let tree = grow(alloc, &builder, &order)?;
        Ok(StillFaces { across, tree })
    }

    /// Sets the list to places of faces, rising: of all but some that have a vertex in common with the edge or do not meet it
    /// where they begin.
    pub(crate) fn near(&self, e: &MovingEdge, into: &mut Vec<u64>) -> Result<(), NoMemory>
        ensures { OnOk result ((frame : Frame) (faces : List MovingFace) → AreStill frame faces self.now
            → AreFound faces e.now into.new.items) }
    {
        into.clear();
        let at = Extent::around(e.first.start.wide(), e.second.start.wide());
        let query = SlabQuery {
            edge: e,
            at: SmallBox::of(&at),
            across: &self.across,
        };
        find_if(&self.tree, &query, into)?;
        rising(into);
        Ok(())
    }
}
