//! The boxes of faces in a frame, known by the faces' corners.
ghost use Rattle.std.specs.Prelude.{◌≡◌, IfOk};
ghost use Rattle.pair_paths.specs.Bounds.{AreBoxesOf};
ghost use Rattle.pair_paths.specs.FaceBoxes.{IsFaceBoxIn, labels_of};

use crate::frame::{Frame, HasBoundsIn};
use crate::moving_parts::MovingFace;
use box_tree::{LabelledBox, Labels, SmallBox};
use grid_base::NoMemory;
use mesh_base::Corners;
use std::alloc::Global;

// The ids of the corners, as labels.
fn labels_of(c: &Corners) -> Labels
    ensures { result ≡ labels_of c.now }
{
    Labels {
        first: c.first.0,
        second: c.second.0,
        third: c.third.0,
    }
}

// The box of a face in a frame, known by the face's corners.
fn face_box(f: &MovingFace, frame: &Frame) -> LabelledBox
    ensures { IsFaceBoxIn frame.now f.now result }
{
    LabelledBox {
        at: SmallBox::of(&f.bounds_in(frame)),
        labels: labels_of(&f.corners),
    }
}

/// The boxes of faces in a frame, in their order, each known by the ids of its face's corners. Refuses only where there is
/// no memory.
pub fn boxes_in(
    alloc: Global,
    faces: &[MovingFace],
    frame: &Frame,
) -> Result<Vec<LabelledBox>, NoMemory>
    ensures { IfOk result (λ boxes. AreBoxesOf (IsFaceBoxIn frame.now) faces.now boxes.items) }
{
    let mut boxes = Vec::with_capacity(alloc, faces.len())?;
    for f in faces {
        boxes.push(face_box(f, frame))?;
    }
    Ok(boxes)
}
