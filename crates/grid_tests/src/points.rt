use crate::places::position;
use crate::same::assert_same;
use grid_base::{
    BOX, HALF_MAX, HALVINGS_MAX, Point, SHIFT_MAX, Shift, Wide, floor_mid, halved, moved, orient,
};
use std::process::Abort;

fn point(rt: &impl Abort, p: [i32; 3]) -> Point {
    Point::new(p[0], p[1], p[2]).expect(rt, "a point in the box")
}

fn shift(rt: &impl Abort, s: [i32; 3]) -> Shift {
    Shift::new(s[0], s[1], s[2]).expect(rt, "a shift within its limit")
}

// The greatest coordinate of a point, and of a shift.
const M: i32 = BOX as i32;

const S: i32 = SHIFT_MAX as i32;

// Shifts, how often they are halved, and what is left: halves are rounded toward zero.
const HALVES: [([i32; 3], u8, [i32; 3]); 3] = [
    ([-3, 3, -4], 0, [-3, 3, -4]),
    ([-3, 3, -4], 1, [-1, 1, -2]),
    ([S, -S, S - 1], HALVINGS_MAX, [4, -4, 3]),
];

fn half(rt: &impl Abort, s: [i32; 3], m: u8) -> Shift {
    assert!(rt; m <= HALVINGS_MAX);
    halved(shift(rt, s), m)
}

#[test]
fn points_move_within_the_box_and_midpoints_round_down(rt: HostRuntime) {
    let p = point(&rt, [M, -M, 3]);
    let to = moved(p, shift(&rt, [-2 * M, 0, -4]));
    assert_same(&rt, &to, &Some(point(&rt, [-M, -M, -1])));
    let to = moved(p, shift(&rt, [0, -1, 0]));
    assert_same(&rt, &to, &None);
    let mid = floor_mid(point(&rt, [-1, 3, -3]), point(&rt, [0, 4, -4]));
    assert_same(&rt, &mid, &point(&rt, [-1, 3, -4]));
    for (s, m, left) in &HALVES {
        assert_same(&rt, &half(&rt, *s, *m), &shift(&rt, *left));
    }
}

// The difference, the vector across both, and the product.
fn products(rt: &impl Abort, a: [i64; 3], b: [i64; 3]) -> (Wide, Wide, i128) {
    let a = position(rt, a);
    let b = position(rt, b);
    (a.minus(b), a.cross(b), a.dot(b))
}

// Two vectors, and their products.
const PRODUCTS: [([[i64; 3]; 2], [i64; 3], [i64; 3], i128); 4] = [
    ([[1, 0, 0], [0, 1, 0]], [1, -1, 0], [0, 0, 1], 0),
    ([[0, 1, 0], [0, 0, 1]], [0, 1, -1], [1, 0, 0], 0),
    ([[0, 0, 1], [1, 0, 0]], [-1, 0, 1], [0, 1, 0], 0),
    ([[2, 3, 5], [7, 11, -13]], [-5, -8, 18], [-94, 61, 1], -18),
];

// The greatest coordinate of a position.
const H: i64 = HALF_MAX as i64;

// Four positions, and how they are turned to one another.
const TURNS: [([[i64; 3]; 4], i128); 3] = [
    ([[0, 0, 0], [1, 0, 0], [0, 1, 0], [0, 0, 1]], 1),
    ([[0, 0, 0], [0, 1, 0], [1, 0, 0], [0, 0, 1]], -1),
    // 8 H H H
    (
        [[-H, -H, -H], [H, -H, -H], [-H, H, -H], [-H, -H, H]],
        1_237_940_039_285_380_274_899_124_224,
    ),
];

#[test]
fn products_of_wide_vectors(rt: HostRuntime) {
    for ([a, b], minus, cross, dot) in &PRODUCTS {
        let wanted = (position(&rt, *minus), position(&rt, *cross), *dot);
        assert_same(&rt, &products(&rt, *a, *b), &wanted);
    }
    for ([a, b, c, d], wanted) in &TURNS {
        let found = orient(
            position(&rt, *a),
            position(&rt, *b),
            position(&rt, *c),
            position(&rt, *d),
        );
        assert_same(&rt, &found, wanted);
    }
}
