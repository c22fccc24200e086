//! Worked examples: an edge and a triangle, and what the five vertices get.
use crate::same::assert_same;
use grid_base::{Point, Shift};
use mesh_base::VertexId;
use std::process::Abort;
use step_impulse::axis_impulse;

const IDS: [VertexId; 5] = [
    VertexId(7),
    VertexId(2),
    VertexId(9),
    VertexId(4),
    VertexId(5),
];

fn at(x: i32, y: i32, z: i32, rt: &impl Abort) -> Point {
    Point::new(x, y, z).expect(rt, "a point in the box")
}

fn by(x: i32, z: i32, rt: &impl Abort) -> Shift {
    Shift::new(x, 2, z).expect(rt, "a shift")
}

// An edge below a triangle, which is farthest from it upward.
const BELOW: [[i32; 3]; 5] = [[0, 0, 0], [4, 0, 0], [0, 0, 8], [4, 4, 8], [0, 4, 9]];

// An edge and a triangle that are as far apart along x as upward, and less along y.
const ASIDE: [[i32; 3]; 5] = [[0, 0, 0], [0, 4, 0], [8, 0, 8], [8, 4, 8], [9, 2, 9]];

// The shifts along x and upward after an impulse, of these along x and upward.
fn after(
    places: &[[i32; 3]; 5],
    fixed: &[bool; 5],
    [xs, zs]: [[i32; 5]; 2],
    rt: &impl Abort,
) -> [[i32; 5]; 2] {
    let start = places.map(|p| at(p[0], p[1], p[2], rt));
    let mut shifts = [
        by(xs[0], zs[0], rt),
        by(xs[1], zs[1], rt),
        by(xs[2], zs[2], rt),
        by(xs[3], zs[3], rt),
        by(xs[4], zs[4], rt),
    ];
    axis_impulse(&start, &IDS, fixed, &mut shifts);
    [shifts.map(|s| s.x), shifts.map(|s| s.z)]
}

// No vertex is fixed; the third is.
const NONE: [bool; 5] = [false; 5];

const THIRD: [bool; 5] = [false, false, true, false, false];

const ONES: [i32; 5] = [1; 5];

const SUMS: [i32; 5] = [10, 0, -6, 0, 4];

const SHARES: [i32; 5] = [1, 2, 1, 2, 2];

// Where the edge and the triangle stand, which of the vertices are fixed, and the shifts along x and upward before and after.
const CASES: [(&[[i32; 3]; 5], [bool; 5], [[i32; 5]; 2], [[i32; 5]; 2]); 4] = [
    (&BELOW, NONE, [ONES, SUMS], [ONES, SHARES]),
    // The sum -2 is five times -1 and 3 more.
    (
        &BELOW,
        NONE,
        [ONES, [10, 0, -6, 0, -6]],
        [ONES, [-1, 0, -1, 0, 0]],
    ),
    (&BELOW, THIRD, [ONES, SUMS], [ONES, [0; 5]]),
    // Of equal gaps the first axis is taken.
    (&ASIDE, NONE, [SUMS, ONES], [SHARES, ONES]),
];

#[test]
fn shares_go_to_the_smallest_ids(rt: HostRuntime) {
    for (places, fixed, before, wanted) in &CASES {
        assert_same(&rt, &after(places, fixed, *before, &rt), wanted);
    }
}
