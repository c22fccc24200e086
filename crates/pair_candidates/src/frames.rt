//! The frames in which a motion is scanned. A scan is right in any frames; where bodies go far as wholes, it is fast in these.
use grid_base::{NoMemory, Shift, Wide};
use mesh_base::ShiftOf;
use pair_paths::{Frame, MovingFace, Position};
use std::alloc::Global;

/// The frame in which the boxes of faces are made, and another for edges that go more as that does.
#[derive(Clone, Copy)]
pub struct Frames {
    pub first: Frame,
    pub other: Option<Frame>,
}

impl Frames {
    /// This frame alone.
    pub fn of(first: Frame) -> Frames {
        Frames { first, other: None }
    }

    /// The frame that stays where it is.
    pub fn resting() -> Frames {
        Frames::of(Frame {
            end: Position::of(Wide { x: 0, y: 0, z: 0 }),
        })
    }

    /// A frame that goes as most vertices do by these shifts, and one that goes as those do that go far otherwise, where there are
    /// such.
    pub fn of_shifts(
        alloc: Global,
        faces: &[MovingFace],
        by: &[ShiftOf],
    ) -> Result<Frames, NoMemory> {
        let first = common_frame(alloc, by)?;
        let other = other_frame(alloc, faces, by, &first)?;
        Ok(Frames { first, other })
    }
}

// The shift in the middle of the list; none, where the list is empty.
fn middle(shifts: &[Shift]) -> Shift {
    match shifts.get(shifts.len() / 2) {
        Some(s) => *s,
        None => Shift { x: 0, y: 0, z: 0 },
    }
}

// The frame that goes, along each axis, by the median of these shifts.
fn median_frame(shifts: &mut Vec<Shift>) -> Frame {
    shifts.sort_unstable_by_key(|s| s.x);
    let x = middle(shifts).x;
    shifts.sort_unstable_by_key(|s| s.y);
    let y = middle(shifts).y;
    shifts.sort_unstable_by_key(|s| s.z);
    let z = middle(shifts).z;
    Frame {
        end: Position::of(Wide {
            x: i128::from(x),
            y: i128::from(y),
            z: i128::from(z),
        }),
    }
}

// A frame that goes, along each axis, by the median of the shifts.
fn common_frame(alloc: Global, by: &[ShiftOf]) -> Result<Frame, NoMemory> {
    let mut shifts = Vec::new(alloc);
    for s in by {
        shifts.push(s.by)?;
    }
    Ok(median_frame(&mut shifts))
}

/// How far a way is from the frame's, along the axis where it is farthest.
pub(crate) fn gap(way: Wide, frame: &Frame) -> u128 {
    let o = frame.end.wide();
    way.x
        .abs_diff(o.x)
        .max(way.y.abs_diff(o.y))
        .max(way.z.abs_diff(o.z))
}

fn wide_of(s: Shift) -> Wide {
    Wide {
        x: i128::from(s.x),
        y: i128::from(s.y),
        z: i128::from(s.z),
    }
}

// The greatest gap of the shifts from the frame.
fn greatest_gap(by: &[ShiftOf], frame: &Frame) -> u128 {
    let mut most: u128 = 0;
    for s in by {
        most = most.max(gap(wide_of(s.by), frame));
    }
    most
}

// Of each hundredth face, the mean length of a side, along the axis where it is longest.
fn mean_side(faces: &[MovingFace]) -> u128 {
    let mut sum: u128 = 0;
    let mut count: u128 = 0;
    for f in faces.iter().step_by(100) {
        let side = gap(f.c.start.wide(), &Frame { end: f.d.start });
        sum = sum.saturating_add(side);
        count = count.saturating_add(1);
    }
    sum / count.max(1)
}

// The frame of those that go otherwise than the first frame: by the median of the shifts whose gap from it is near the
// greatest. None, where these are few, or the gap is not long beside the faces.
fn other_frame(
    alloc: Global,
    faces: &[MovingFace],
    by: &[ShiftOf],
    first: &Frame,
) -> Result<Option<Frame>, NoMemory> {
    let far = greatest_gap(by, first) / 4 * 3;
    if far <= mean_side(faces) {
        return Ok(None);
    }
    let mut shifts = Vec::new(alloc);
    for s in by {
        if gap(wide_of(s.by), first) > far {
            shifts.push(s.by)?;
        }
    }
    if shifts.len() < by.len() / 64 {
        return Ok(None);
    }
    Ok(Some(median_frame(&mut shifts)))
}
