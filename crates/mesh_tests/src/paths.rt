//! Worked examples: the boxes of faces that move, in frames.
use box_tree::LabelledBox;
use grid_base::{Extent, NoMemory, Point, Wide};
use mesh_base::{Corners, FaceId, VertexId};
use pair_paths::{Frame, MovingFace, Path, Position, boxes_in};
use std::alloc::Global;
use std::process::Abort;
use std::test::Fail;

// Three faces, by the ids of their corners and by where these start.
const FACES: [([u32; 3], [[i32; 3]; 3]); 3] = [
    ([1, 4, 2], [[0, 0, 0], [0, 4, 0], [4, 0, 0]]),
    ([2, 4, 5], [[4, 0, 0], [0, 4, 0], [0, 0, 4]]),
    ([1, 5, 4], [[0, 0, 0], [0, 0, 4], [0, 4, 0]]),
];

// All go to one place.
const PLACE: [i32; 3] = [1, 2, -3];

// Where all end in a frame, and the boxes of the faces there, by their least and greatest corners.
const FRAMES: [([i32; 3], [[[i32; 3]; 2]; 3]); 3] = [
    // in the frame that stays they end at (1, 2, -3)
    (
        [0, 0, 0],
        [
            [[0, 0, -3], [4, 4, 0]],
            [[0, 0, -3], [4, 4, 4]],
            [[0, 0, -3], [1, 4, 4]],
        ],
    ),
    // at the origin
    (
        [1, 2, -3],
        [
            [[0, 0, 0], [4, 4, 0]],
            [[0, 0, 0], [4, 4, 4]],
            [[0, 0, 0], [0, 4, 4]],
        ],
    ),
    // at (-9, 2, 2)
    (
        [10, 0, -5],
        [
            [[-9, 0, 0], [4, 4, 2]],
            [[-9, 0, 0], [4, 4, 4]],
            [[-9, 0, 0], [0, 4, 4]],
        ],
    ),
];

fn position(p: [i32; 3], rt: &impl Abort) -> Position {
    let p = Point::new(p[0], p[1], p[2]).expect(rt, "a point in the box");
    Position::of(p.wide())
}

fn path(start: [i32; 3], rt: &impl Abort) -> Path {
    Path {
        start: position(start, rt),
        end: position(PLACE, rt),
    }
}

fn moving(ids: [u32; 3], starts: &[[i32; 3]; 3], rt: &impl Abort) -> MovingFace {
    let [first, second, third] = ids.map(|v| VertexId(v));
    MovingFace {
        face: FaceId(1),
        corners: Corners {
            first,
            second,
            third,
        },
        c: path(starts[0], rt),
        d: path(starts[1], rt),
        e: path(starts[2], rt),
    }
}

fn wide(p: [i32; 3]) -> Wide {
    Wide {
        x: i128::from(p[0]),
        y: i128::from(p[1]),
        z: i128::from(p[2]),
    }
}

// The box is the wanted one, no larger, and is known by these corners.
fn is_box(found: &LabelledBox, wanted: [[i32; 3]; 2], ids: [u32; 3]) -> bool {
    let e: Extent = found.at.extent();
    let known = [found.labels.first, found.labels.second, found.labels.third];
    e.low == wide(wanted[0]) && e.high == wide(wanted[1]) && known == ids
}

fn are_boxes(found: &[LabelledBox], wanted: &[[[i32; 3]; 2]; 3]) -> bool {
    let mut same = found.len() == 3;
    for ((found, at), (ids, _)) in found.iter().zip(wanted).zip(&FACES) {
        same = same && is_box(found, *at, *ids);
    }
    same
}

fn assert_boxes(
    alloc: Global,
    end: [i32; 3],
    wanted: &[[[i32; 3]; 2]; 3],
    rt: &impl Abort,
) -> Result<(), NoMemory> {
    let faces = FACES.map(|(ids, starts)| moving(ids, &starts, rt));
    let frame = Frame {
        end: position(end, rt),
    };
    let boxes = boxes_in(alloc, &faces, &frame)?;
    assert!(rt; are_boxes(boxes.as_slice(), wanted), "{end:?}");
    Ok(())
}

#[test]
fn faces_have_their_boxes_in_each_frame(rt: HostRuntime) -> Result<(), Fail> {
    for (end, boxes) in &FRAMES {
        assert_boxes(rt.alloc(), *end, boxes, &rt)?;
    }
    Ok(())
}
