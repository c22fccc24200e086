ghost use Rattle.std.specs.Prelude.{◌≡◌, IsTrue};
ghost use Rattle.grid_base.specs.Meeting.{AreWithin};
ghost use Rattle.grid_base.specs.declared.TheConstants.{HALF_MAX};
ghost use Rattle.motion_test.specs.Pairs.{positions_of};

use crate::places::{is_within, wide};
use crate::same::assert_same;
use grid_base::{DEPTH_MAX, HALF_MAX, Positions, Wide};
use grid_meets::meets;
use motion_test::{Pair, closes, directions, opens, passes, separated};
use std::process::Abort;

// The greatest size of a position.
const M: i64 = HALF_MAX as i64;

// An edge's ends and a triangle's corners.
type Place = [[i64; 3]; 5];

fn all_at(f: &Place) -> [Wide; 5] {
    [wide(f[0]), wide(f[1]), wide(f[2]), wide(f[3]), wide(f[4])]
}

// The five positions of a list.
fn positions(p: &[Wide; 5]) -> Positions
    ensures { result ≡ positions_of p.now }
{
    Positions {
        a: p[0],
        b: p[1],
        c: p[2],
        d: p[3],
        e: p[4],
    }
}

fn are_within(f: &Positions) -> bool
    ensures { IsTrue result → AreWithin HALF_MAX f.now }
{
    is_within(HALF_MAX, f.a)
        && is_within(HALF_MAX, f.b)
        && is_within(HALF_MAX, f.c)
        && is_within(HALF_MAX, f.d)
        && is_within(HALF_MAX, f.e)
}

fn pair(rt: &impl Abort, start: &Place, end: &Place) -> Pair
    ensures start_fits { AreWithin HALF_MAX (positions_of result.start) }
    ensures end_fits { AreWithin HALF_MAX (positions_of result.end) }
{
    let start = all_at(start);
    let end = all_at(end);
    assert!(rt; are_within(&positions(&start)));
    assert!(rt; are_within(&positions(&end)));
    Pair { start, end }
}

// Whether the pair separates, passes, opens and closes.
fn answers(rt: &impl Abort, p: &Pair, depth: u8) -> [bool; 4]
    requires start_fits { AreWithin HALF_MAX (positions_of p.now.start) }
    requires end_fits { AreWithin HALF_MAX (positions_of p.now.end) }
{
    assert!(rt; depth <= DEPTH_MAX);
    [
        separated(p, depth),
        passes(p, depth),
        opens(p, depth),
        closes(p, depth),
    ]
}

// More than the greatest depth.
const NEVER: u8 = DEPTH_MAX + 1;

// The pair separates, passes, opens and closes from these depths on, and not at lesser ones.
fn answers_from(rt: &impl Abort, p: &Pair, least: [u8; 4])
    requires start_fits { AreWithin HALF_MAX (positions_of p.now.start) }
    requires end_fits { AreWithin HALF_MAX (positions_of p.now.end) }
{
    for depth in 0..DEPTH_MAX + 1 {
        let wanted = least.map(|from| from <= depth);
        assert_same(rt, &(depth, answers(rt, p, depth)), &(depth, wanted));
    }
}

// An edge whose end is a corner of a triangle, and moves away from it.
const TOUCHING: Place = [[0, 0, 0], [8, 0, 0], [0, 0, 0], [-8, 4, 0], [-8, 0, 4]];

const MOVED_AWAY: Place = [[1, 0, 0], [9, 0, 0], [-1, 0, 0], [-9, 4, 0], [-9, 0, 4]];

// The directions of that pair, by their places.
const DIRECTIONS: [(usize, [i64; 3]); 17] = [
    (0, [1, 0, 0]),
    (1, [0, 1, 0]),
    (2, [0, 0, 1]),
    // the normal, the edge across the first side, the second and the third, and the differences
    (3, [16, 32, 32]),
    (4, [0, 0, 32]),
    (5, [0, -32, -32]),
    (6, [0, 32, 0]),
    (7, [0, 0, 0]),
    (8, [-8, 4, 0]),
    (9, [-8, 0, 4]),
    (10, [-8, 0, 0]),
    (11, [-16, 4, 0]),
    (12, [-16, 0, 4]),
    // the like at the end
    (13, [16, 32, 32]),
    (17, [-2, 0, 0]),
    (22, [-18, 0, 4]),
    // there are no more
    (23, [0, 0, 0]),
];

#[test]
fn directions_stand_in_their_order(rt: HostRuntime) {
    let p = pair(&rt, &TOUCHING, &MOVED_AWAY);
    let s = positions(&p.start);
    let t = positions(&p.end);
    let all = directions(&s, &t);
    for (i, wanted) in &DIRECTIONS {
        let wanted = if *i < 23 { Some(wide(*wanted)) } else { None };
        assert_same(&rt, &(i, all.get(*i).copied()), &(i, wanted));
    }
}

// Two tetrahedra in half units: vertices 1 to 4, and vertices 5 to 8.
const VERTICES: [[i64; 3]; 8] = [
    [0, 0, 0],
    [0, 24, 0],
    [0, 0, 24],
    [-24, 0, 0],
    [16, 4, 4],
    [24, 4, 4],
    [24, 12, 4],
    [28, 4, 12],
];

// The same, where the second body has moved along x, to beyond the first.
const PASSED: [[i64; 3]; 8] = [
    [0, 0, 0],
    [0, 24, 0],
    [0, 0, 24],
    [-24, 0, 0],
    [-64, 4, 4],
    [-56, 4, 4],
    [-56, 12, 4],
    [-52, 4, 12],
];

const FIRST_EDGES: [[usize; 2]; 6] = [[1, 2], [1, 3], [1, 4], [2, 3], [2, 4], [3, 4]];

const SECOND_EDGES: [[usize; 2]; 6] = [[5, 6], [5, 7], [5, 8], [6, 7], [6, 8], [7, 8]];

const FIRST_FACES: [[usize; 3]; 4] = [[1, 2, 3], [2, 1, 4], [3, 2, 4], [1, 3, 4]];

const SECOND_FACES: [[usize; 3]; 4] = [[6, 7, 8], [7, 6, 5], [8, 7, 5], [6, 8, 5]];

// Where the vertex of an id stands, among the vertices from 1 to 8.
fn vertex_at(vertices: &[[i64; 3]; 8], v: usize) -> [i64; 3] {
    match vertices.get(v.wrapping_sub(1)) {
        Some(p) => *p,
        None => [0; 3],
    }
}

fn place(vertices: &[[i64; 3]; 8], edge: [usize; 2], face: [usize; 3]) -> Place {
    [
        vertex_at(vertices, edge[0]),
        vertex_at(vertices, edge[1]),
        vertex_at(vertices, face[0]),
        vertex_at(vertices, face[1]),
        vertex_at(vertices, face[2]),
    ]
}

// The pair of an edge and a face whose second body moves from one side of the first to the other.
fn passing(rt: &impl Abort, edge: [usize; 2], face: [usize; 3]) -> Pair
    ensures start_fits { AreWithin HALF_MAX (positions_of result.start) }
    ensures end_fits { AreWithin HALF_MAX (positions_of result.end) }
{
    pair(
        rt,
        &place(&VERTICES, edge, face),
        &place(&PASSED, edge, face),
    )
}

fn is_clear_at_both_ends(p: &Pair) -> bool
    requires start_fits { AreWithin HALF_MAX (positions_of p.now.start) }
    requires end_fits { AreWithin HALF_MAX (positions_of p.now.end) }
{
    let s = positions(&p.start);
    let t = positions(&p.end);
    !meets(s.a, s.b, s.c, s.d, s.e) && !meets(t.a, t.b, t.c, t.d, t.e)
}

// Whether the edge passes the face, at each depth.
fn assert_passing(rt: &impl Abort, edge: [usize; 2], face: [usize; 3], passes: bool) {
    let p = passing(rt, edge, face);
    assert!(rt; is_clear_at_both_ends(&p));
    answers_from(rt, &p, if passes { [0; 4] } else { [NEVER; 4] });
}

#[test]
fn two_tetrahedra_pass_through_each_other(rt: HostRuntime) {
    for edge in &SECOND_EDGES {
        for (i, face) in FIRST_FACES.iter().enumerate() {
            assert_passing(&rt, *edge, *face, i == 1 || i == 3);
        }
    }
    for edge in &FIRST_EDGES {
        for face in &SECOND_FACES {
            assert_passing(&rt, *edge, *face, true);
        }
    }
}

// In one plane, and apart, but by none of the 23 directions; and moved by one shift.
const BESIDE: Place = [[-7, 1, 6], [0, 9, -9], [-9, 1, 8], [-7, 0, 7], [2, 0, -2]];

const BESIDE_MOVED: Place = [
    [-4, -1, 11],
    [3, 7, -4],
    [-6, -1, 13],
    [-4, -2, 12],
    [5, -2, 3],
];

// A pair that is separated only where each of eight parts of its motion has a direction of its own.
const TURNING: Place = [
    [6, 12, 10],
    [-11, -10, -10],
    [-3, 8, -3],
    [-3, 1, 9],
    [-5, -11, 1],
];

const TURNED: Place = [
    [2, -3, -7],
    [10, -2, 4],
    [10, 4, 6],
    [0, 2, 7],
    [2, -11, -7],
];

// A pair that meets at its end, and closes only at depth 4.
const COMING: Place = [
    [0, 8, 9],
    [-12, -9, -6],
    [6, 9, -1],
    [-1, -9, 10],
    [4, 8, 12],
];

const ARRIVED: Place = [[-2, 4, 9], [4, 6, 3], [-9, -12, -11], [12, 5, 7], [4, 6, 3]];

// Pairs of the greatest sizes: one that turns, and one whose edge goes through the triangle after a third of the time.
const FAR_TURNING: Place = [
    [M, -M, M],
    [M, M, M],
    [-M, -M, -M],
    [M, -M, -M],
    [M, -M, -M],
];

const FAR_TURNED: Place = [
    [-M, M, -M],
    [-M, M, M],
    [M, M, -M],
    [-M, -M, M],
    [M, -M, -M],
];

const FAR_OVER: Place = [[0, 0, M / 2], [0, 0, M], [-M, -M, 0], [M, -M, 0], [0, M, 0]];

const FAR_THROUGH: Place = [[0, 0, -M], [0, 0, M], [-M, -M, 0], [M, -M, 0], [0, M, 0]];

// Where a pair starts and ends, and from which depths on it separates, passes, opens and closes.
const FROM_DEPTHS: [(&Place, &Place, [u8; 4]); 10] = [
    // a pair that leaves a touch only opens, and one that comes to it only closes
    (&TOUCHING, &MOVED_AWAY, [NEVER, NEVER, 0, NEVER]),
    (&MOVED_AWAY, &TOUCHING, [NEVER, NEVER, NEVER, 0]),
    // pairs that move together pass where they do not meet
    (&BESIDE, &BESIDE_MOVED, [NEVER, 0, NEVER, NEVER]),
    (&BESIDE, &BESIDE, [NEVER, 0, NEVER, NEVER]),
    (&TOUCHING, &TOUCHING, [NEVER; 4]),
    (&FAR_OVER, &FAR_THROUGH, [NEVER; 4]),
    // the time is halved
    (&TURNING, &TURNED, [3; 4]),
    (&COMING, &ARRIVED, [NEVER, NEVER, NEVER, 4]),
    (&ARRIVED, &COMING, [NEVER, NEVER, 4, NEVER]),
    (&FAR_TURNING, &FAR_TURNED, [2, 2, 2, 0]),
];

#[test]
fn pairs_are_told_from_their_depths_on(rt: HostRuntime) {
    for (start, end, least) in &FROM_DEPTHS {
        answers_from(&rt, &pair(&rt, start, end), *least);
    }
}
