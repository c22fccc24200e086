//! Faces as frames see them.
ghost use Rattle.std.specs.Prelude.{IfOk, IfSome};
ghost use Rattle.pair_candidates.specs.Views.{IsView};

use crate::asked_tree::AskedTree;
use crate::frames::{Frames, gap};
use crate::still_faces::StillFaces;
use grid_base::NoMemory;
use pair_paths::{Frame, MovingEdge, MovingFace, boxes_in};
use std::alloc::Global;

/// A tree of the boxes of faces in a frame, and how many edges its next question looks ahead; how many faces were found near
/// edges so far; and the tree of faces that all go with the frame, once that was asked for and they do.
#[derive(Drop)]
pub(crate) struct View {
    pub(crate) frame: Frame,
    pub(crate) boxes: AskedTree,
    pub(crate) ahead: usize,
    pub(crate) found: usize,
    pub(crate) is_asked: bool,
    pub(crate) still: Option<StillFaces>,
}

/// The faces as the frame of most sees them, and as that of those that go otherwise does, where there are such.
#[derive(Drop)]
pub(crate) struct Views {
    pub(crate) first: View,
    pub(crate) other: Option<View>,
}

/// The faces as a frame sees them.
fn view_of(alloc: Global, faces: &[MovingFace], frame: Frame) -> Result<View, NoMemory>
    ensures { IfOk result (IsView faces.now) }
{
    let list = boxes_in(alloc, faces, &frame)?;
    Ok(View {
        frame,
        boxes: AskedTree::of(alloc, &list)?,
        ahead: 1,
        found: 0,
        is_asked: false,
        still: None,
    })
}

/// The same, where there is a frame.
fn view_if(
    alloc: Global,
    faces: &[MovingFace],
    frame: Option<Frame>,
) -> Result<Option<View>, NoMemory>
    ensures { IfOk result (λ o. IfSome o (IsView faces.now)) }
{
    match frame {
        Some(f) => Ok(Some(view_of(alloc, faces, f)?)),
        None => Ok(None),
    }
}

/// The faces as the frames see them.
pub(crate) fn views_of(
    alloc: Global,
    faces: &[MovingFace],
    frames: Frames,
) -> Result<Views, NoMemory>
    ensures first { IfOk result (λ w. IsView faces.now w.first) }
    ensures other { IfOk result (λ w. IfSome w.other (IsView faces.now)) }
{
    Ok(Views {
        first: view_of(alloc, faces, frames.first)?,
        other: view_if(alloc, faces, frames.other)?,
    })
}

/// Whether the edge goes more with the one frame than with the other.
pub(crate) fn goes_with(e: &MovingEdge, one: &Frame, other: &Frame) -> bool {
    let way = e.first.end.seen_from(e.first.start);
    gap(way, one) < gap(way, other)
}
