use crate::places::position;
use grid_base::HALF_MAX;
use grid_meets::meets;
use std::process::Abort;

// The greatest size of a position.
const M: i64 = HALF_MAX as i64;

// An edge's ends and a triangle's corners.
type Case = [[i64; 3]; 5];

// Cases that meet, at the edges of meeting: points, segments, one plane, and the greatest sizes.
const MEET_AT_THE_EDGES: [Case; 4] = [
    [[0, 0, 0], [4, 0, 0], [2, 0, 0], [2, 0, 0], [2, 0, 0]],
    [[1, 1, 0], [1, 1, 0], [0, 0, 0], [3, 0, 0], [0, 3, 0]],
    [[-1, 1, 0], [5, 1, 0], [0, 0, 0], [3, 0, 0], [0, 3, 0]],
    [[-M, 0, 0], [M, 0, 0], [0, -M, -M], [0, M, -M], [0, 0, M]],
];

// The like that do not meet.
const APART_AT_THE_EDGES: [Case; 5] = [
    [[0, 0, 0], [4, 0, 0], [5, 0, 0], [6, 0, 0], [9, 0, 0]],
    [[2, 2, 0], [2, 2, 0], [0, 0, 0], [3, 0, 0], [0, 3, 0]],
    [[4, 4, 0], [9, 9, 0], [0, 0, 0], [3, 0, 0], [0, 3, 0]],
    [[1, 1, 1], [1, 1, 2], [0, 0, 0], [3, 0, 0], [0, 3, 0]],
    [[-M, 0, 0], [M, 0, 0], [0, -M, 1], [0, M, 1], [0, 0, M]],
];

// Cases that meet, by kinds. Above each stand weights of the ends and of the corners that give one position.
const MEET: [Case; 42] = [
    // an edge through a corner
    // weights 1 1, 2 0 0
    [[-3, 0, -3], [3, 0, 3], [0, 0, 0], [6, 0, 0], [0, 6, 0]],
    // weights 1 0, 0 1 0
    [[6, 0, 0], [9, 5, 7], [0, 0, 0], [6, 0, 0], [0, 6, 0]],
    // an end in the face, and short of it
    // weights 6 0, 4 1 1
    [[1, 1, 0], [1, 1, 9], [0, 0, 0], [6, 0, 0], [0, 6, 0]],
    // weights 0 6, 4 1 1
    [[1, 1, -9], [1, 1, 0], [0, 0, 0], [6, 0, 0], [0, 6, 0]],
    // weights 3 0, 1 1 1
    [[2, 2, 2], [5, -1, 3], [6, 0, 0], [0, 6, 0], [0, 0, 6]],
    // an end on a side
    // weights 2 0, 0 1 1
    [[3, 3, 0], [8, 8, 8], [0, 0, 0], [6, 0, 0], [0, 6, 0]],
    // weights 0 2, 1 1 0
    [[3, -4, 5], [3, 0, 0], [0, 0, 0], [6, 0, 0], [0, 6, 0]],
    // an edge through the face
    // weights 3 3, 2 2 2
    [[2, 2, -1], [2, 2, 1], [0, 0, 0], [6, 0, 0], [0, 6, 0]],
    // weights 3 3, 2 2 2
    [[2, 2, 1], [2, 2, -1], [0, 0, 0], [6, 0, 0], [0, 6, 0]],
    // weights 3 3, 2 2 2
    [[0, 0, 0], [6, 4, 0], [1, 2, 3], [7, -1, 2], [1, 5, -5]],
    // weights 8 4, 4 4 4
    [[6, 6, 6], [-6, -6, -6], [6, 0, 0], [0, 6, 0], [0, 0, 6]],
    // weights 24 6, 27 2 1
    [[7, 0, 0], [-1, 2, 1], [6, 0, 0], [0, 6, 0], [0, 0, 6]],
    // an edge through a side, and past it
    // weights 1 1, 0 1 1
    [[3, 3, -2], [3, 3, 2], [0, 0, 0], [6, 0, 0], [0, 6, 0]],
    // weights 1 1, 1 1 0
    [[3, -1, -1], [3, 1, 1], [0, 0, 0], [6, 0, 0], [0, 6, 0]],
    // in the plane, across it
    // weights 3 3, 1 3 2
    [[-2, 2, 0], [8, 2, 0], [0, 0, 0], [6, 0, 0], [0, 6, 0]],
    // weights 1 1, 2 0 0
    [[-1, 1, 0], [1, -1, 0], [0, 0, 0], [6, 0, 0], [0, 6, 0]],
    // weights 0 2, 1 1 0
    [[3, -2, 0], [3, 0, 0], [0, 0, 0], [6, 0, 0], [0, 6, 0]],
    // weights 1 1, 0 2 0
    [[6, 6, -6], [-6, 6, 6], [6, 0, 0], [0, 6, 0], [0, 0, 6]],
    // weights 6 6, 8 3 1
    [[9, -2, -1], [-1, 5, 2], [6, 0, 0], [0, 6, 0], [0, 0, 6]],
    // in the plane, inside it
    // weights 6 0, 4 1 1
    [[1, 1, 0], [2, 1, 0], [0, 0, 0], [6, 0, 0], [0, 6, 0]],
    // weights 3 0, 1 1 1
    [[2, 2, 2], [3, 2, 1], [6, 0, 0], [0, 6, 0], [0, 0, 6]],
    // weights 6 0, 4 1 1
    [[1, 1, 0], [9, 9, 0], [0, 0, 0], [6, 0, 0], [0, 6, 0]],
    // weights 0 6, 4 1 1
    [[9, 9, 0], [1, 1, 0], [0, 0, 0], [6, 0, 0], [0, 6, 0]],
    // along a side
    // weights 6 0, 5 1 0
    [[1, 0, 0], [4, 0, 0], [0, 0, 0], [6, 0, 0], [0, 6, 0]],
    // weights 3 1, 4 0 0
    [[-3, 0, 0], [9, 0, 0], [0, 0, 0], [6, 0, 0], [0, 6, 0]],
    // weights 6 0, 1 5 0
    [[5, 0, 0], [9, 0, 0], [0, 0, 0], [6, 0, 0], [0, 6, 0]],
    // weights 1 0, 0 1 0
    [[6, 0, 0], [9, 0, 0], [0, 0, 0], [6, 0, 0], [0, 6, 0]],
    // weights 0 3, 0 2 1
    [[9, -3, 0], [4, 2, 0], [0, 0, 0], [6, 0, 0], [0, 6, 0]],
    // a triangle of no area
    // weights 1 1, 0 1 1
    [[4, -1, 0], [4, 1, 0], [0, 0, 0], [2, 0, 0], [6, 0, 0]],
    // weights 1 1, 1 0 1
    [[4, -1, 0], [4, 1, 0], [6, 0, 0], [0, 0, 0], [2, 0, 0]],
    // weights 1 1, 0 1 1
    [[2, 2, 0], [2, 2, 4], [0, 0, 0], [0, 0, 0], [4, 4, 4]],
    // weights 1 1, 2 0 0
    [[1, 1, 1], [5, 5, 5], [3, 3, 3], [9, 9, 9], [6, 6, 6]],
    // an edge of no length
    // weights 1 0, 0 0 1
    [[0, 6, 0], [0, 6, 0], [0, 0, 0], [6, 0, 0], [0, 6, 0]],
    // weights 2 0, 0 1 1
    [[3, 3, 0], [3, 3, 0], [0, 0, 0], [6, 0, 0], [0, 6, 0]],
    // weights 3 0, 1 1 1
    [[2, 2, 0], [2, 2, 0], [0, 0, 0], [6, 0, 0], [0, 6, 0]],
    // a triangle that is a point
    // weights 3 1, 4 0 0
    [[0, 0, 0], [4, 8, 12], [1, 2, 3], [1, 2, 3], [1, 2, 3]],
    // weights 0 1, 1 0 0
    [[0, 0, 0], [4, 8, 12], [4, 8, 12], [4, 8, 12], [4, 8, 12]],
    // two points
    // weights 1 0, 1 0 0
    [[1, 2, 3], [1, 2, 3], [1, 2, 3], [1, 2, 3], [1, 2, 3]],
    // the greatest sizes
    // weights 2 1, 1 1 1
    [
        [-M, -M, -M],
        [M, M, M],
        [M, -M, -M],
        [-M, M, -M],
        [-M, -M, M],
    ],
    // weights 2 2, 1 1 2
    [
        [-M, -M, 0],
        [M, M, 0],
        [M, M - 1, M],
        [M, M - 1, -M],
        [-M, 1 - M, 0],
    ],
    // weights 1 1, 0 0 2
    [[-M, M, M], [M, M, M], [-M, -M, M], [M, -M, M], [0, M, M]],
    // weights 0 1, 1 0 0
    [[-M, -M, -M], [0, 0, 0], [0, 0, 0], [M, M, M], [M, M, M]],
];

// Cases that do not meet, by kinds. Above each stands a direction along which both ends are below all corners.
const APART: [Case; 27] = [
    // an edge through a corner
    // direction -1 0 0
    [[7, 0, -1], [7, 0, 1], [0, 0, 0], [6, 0, 0], [0, 6, 0]],
    // direction -1 -1 0
    [[6, 1, -1], [6, 1, 1], [0, 0, 0], [6, 0, 0], [0, 6, 0]],
    // an end in the face, and short of it
    // direction 0 0 -1
    [[1, 1, 1], [1, 1, 9], [0, 0, 0], [6, 0, 0], [0, 6, 0]],
    // direction 0 0 1
    [[1, 1, -9], [1, 1, -1], [0, 0, 0], [6, 0, 0], [0, 6, 0]],
    // direction -1 -1 -1
    [[2, 2, 3], [5, 5, 5], [6, 0, 0], [0, 6, 0], [0, 0, 6]],
    // an end on a side
    // direction -1 -1 0
    [[3, 4, 0], [8, 8, 8], [0, 0, 0], [6, 0, 0], [0, 6, 0]],
    // an edge through a side, and past it
    // direction -1 -1 0
    [[4, 3, -2], [4, 3, 2], [0, 0, 0], [6, 0, 0], [0, 6, 0]],
    // direction 0 0 1
    [[3, -1, -2], [3, 0, -1], [0, 0, 0], [6, 0, 0], [0, 6, 0]],
    // direction 0 1 -1
    [[3, -2, -1], [3, 1, 3], [0, 0, 0], [6, 0, 0], [0, 6, 0]],
    // in the plane, beside it
    // direction 1 1 0
    [[-2, 1, 0], [1, -2, 0], [0, 0, 0], [6, 0, 0], [0, 6, 0]],
    // direction 1 0 0
    [[-1, 0, 0], [-1, 6, 0], [0, 0, 0], [6, 0, 0], [0, 6, 0]],
    // direction -1 0 0
    [[7, 0, 0], [9, 0, 0], [0, 0, 0], [6, 0, 0], [0, 6, 0]],
    // direction 0 0 1
    [[9, -1, -2], [-1, 9, -2], [6, 0, 0], [0, 6, 0], [0, 0, 6]],
    // along a side
    // direction 1 0 0
    [[-4, 10, 0], [-1, 7, 0], [0, 0, 0], [6, 0, 0], [0, 6, 0]],
    // a triangle of no area
    // direction -1 0 0
    [[7, -1, 0], [7, 1, 0], [0, 0, 0], [6, 0, 0], [2, 0, 0]],
    // direction 0 0 1
    [[0, 0, 0], [4, 0, 0], [0, 1, 1], [4, -1, 1], [2, 0, 1]],
    // direction -1 2 0
    [[0, 0, 0], [4, 2, 0], [0, 1, 0], [4, 3, 0], [8, 5, 0]],
    // direction 1 1 1
    [[1, 1, 1], [5, 5, 5], [6, 6, 6], [9, 9, 9], [7, 7, 7]],
    // an edge of no length
    // direction 0 0 -1
    [[2, 2, 1], [2, 2, 1], [0, 0, 0], [6, 0, 0], [0, 6, 0]],
    // direction -1 -1 0
    [[4, 3, 0], [4, 3, 0], [0, 0, 0], [6, 0, 0], [0, 6, 0]],
    // a triangle that is a point
    // direction 1 1 1
    [[0, 0, 0], [4, 8, 12], [5, 10, 15], [5, 10, 15], [5, 10, 15]],
    // direction -1 -1 1
    [[0, 0, 0], [4, 8, 12], [2, 4, 7], [2, 4, 7], [2, 4, 7]],
    // two points
    // direction 0 0 1
    [[1, 2, 3], [1, 2, 3], [1, 2, 4], [1, 2, 4], [1, 2, 4]],
    // the greatest sizes
    // direction 1 -1 0
    [
        [-M, -M, 0],
        [M, M, 0],
        [M, M - 1, M],
        [M, M - 1, -M],
        [1 - M, -M, 0],
    ],
    // direction 0 -1 0
    [
        [-M, M, M],
        [M, M, M],
        [-M, -M, M],
        [M, -M, M],
        [0, M - 1, M],
    ],
    // direction 1 1 1
    [[-M, -M, -M], [0, 0, 0], [1, 1, 1], [M, M, M], [M, M, M]],
    // direction -1 -1 -1
    [
        [M, M, M],
        [M, M, M],
        [-M, -M, -M],
        [-M, -M, -M],
        [-M, -M, -M],
    ],
];

fn answer(rt: &impl Abort, [a, b, c, d, e]: Case) -> bool {
    meets(
        position(rt, a),
        position(rt, b),
        position(rt, c),
        position(rt, d),
        position(rt, e),
    )
}

// All cases of a list meet, or none does.
fn assert_all(rt: &impl Abort, cases: &[Case], meet: bool) {
    for (i, case) in cases.iter().enumerate() {
        assert!(rt; answer(rt, *case) == meet, "case {i}");
    }
}

#[test]
fn meeting_is_exact_at_its_edges_and_by_kinds(rt: HostRuntime) {
    assert_all(&rt, &MEET_AT_THE_EDGES, true);
    assert_all(&rt, &APART_AT_THE_EDGES, false);
    assert_all(&rt, &MEET, true);
    assert_all(&rt, &APART, false);
}
