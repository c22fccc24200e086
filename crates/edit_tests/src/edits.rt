//! Worked examples of the five edits: what each tells and leaves, and why it is refused.
ghost use Rattle.mesh_base.specs.Placements.{IsClearMesh};
ghost use Rattle.mesh_base.specs.Sides.{IsClosed};

use crate::meshes::{
    FLAT, FLAT_FACES, TETRAHEDRON, TETRAHEDRON_FACES, assert_bytes, assert_same, counts, has_faces,
    lists_at, mesh_of,
};
use edit_any::edit;
use edit_base::{Asked, Edit};
use grid_base::NoMemory;
use log_text::{LogLine, print_line};
use mesh_base::{Surface, VertexId};
use std::alloc::Global;
use std::process::Abort;
use std::test::Fail;

// The faces of two tetrahedra, with the vertices 1 to 4 and 5 to 8.
const TWO_TETRAHEDRA: [[u32; 3]; 8] = [
    [1, 3, 2],
    [1, 2, 4],
    [2, 3, 4],
    [1, 4, 3],
    [5, 7, 6],
    [5, 6, 8],
    [6, 7, 8],
    [5, 8, 7],
];

// Two tetrahedra with the edge 1 2 in common, one where y and z are 0 or more and the other where they are 0 or less; and a third
// far from them.
const JOINED: [[i32; 3]; 10] = [
    [0, 0, 0],
    [8, 0, 0],
    [0, 8, 0],
    [0, 0, 8],
    [0, -8, 0],
    [0, 0, -8],
    [50, 0, 0],
    [58, 0, 0],
    [50, 8, 0],
    [50, 0, 8],
];

const JOINED_FACES: [[u32; 3]; 12] = [
    [1, 3, 2],
    [1, 2, 4],
    [2, 3, 4],
    [1, 4, 3],
    [1, 5, 2],
    [1, 2, 6],
    [2, 5, 6],
    [1, 6, 5],
    [7, 9, 8],
    [7, 8, 10],
    [8, 9, 10],
    [7, 10, 9],
];

// The first lies where 9 z is x or more, and its edge 1 2 has the midpoint (4.5, 0, 0.5), which is rounded to (4, 0, 0).
// There stands the vertex 5 of the second, which lies where z is 0 or less.
const NEAR: [[i32; 3]; 8] = [
    [0, 0, 0],
    [9, 0, 1],
    [0, 9, 20],
    [0, -9, 20],
    [4, 0, 0],
    [4, -3, -9],
    [2, 3, -9],
    [6, 3, -9],
];

// The faces of a tetrahedron, and the same turned over.
const BOTH_WAYS: [[u32; 3]; 8] = [
    [1, 3, 2],
    [1, 2, 4],
    [2, 3, 4],
    [1, 4, 3],
    [2, 3, 1],
    [4, 2, 1],
    [4, 3, 2],
    [3, 4, 1],
];

// An octahedron with a vertex more over each of the two faces beside the edge 1 2.
const OCTAHEDRON: [[i32; 3]; 8] = [
    [8, 0, 0],
    [0, 8, 0],
    [-8, 0, 0],
    [0, -8, 0],
    [0, 0, 8],
    [0, 0, -8],
    [3, 3, 3],
    [3, 3, -3],
];

const OCTAHEDRON_FACES: [[u32; 3]; 12] = [
    [1, 2, 7],
    [2, 5, 7],
    [5, 1, 7],
    [2, 1, 8],
    [1, 6, 8],
    [6, 2, 8],
    [2, 3, 5],
    [3, 2, 6],
    [3, 4, 5],
    [4, 3, 6],
    [4, 1, 5],
    [1, 4, 6],
];

// Three tetrahedra: one with the edge 1 2, one at each of its ends, and these two with the edge 3 4 in common.
const LINKED: [[i32; 3]; 8] = [
    [20, 0, 0],
    [0, 20, 0],
    [0, 0, -4],
    [0, 0, 4],
    [4, 2, 0],
    [-2, 4, 0],
    [20, 20, 4],
    [20, 20, -4],
];

const LINKED_FACES: [[u32; 3]; 12] = [
    [3, 4, 5],
    [1, 5, 4],
    [1, 3, 5],
    [1, 4, 3],
    [3, 4, 6],
    [2, 6, 4],
    [2, 3, 6],
    [2, 4, 3],
    [2, 7, 8],
    [1, 8, 7],
    [1, 2, 8],
    [1, 7, 2],
];

// A tetrahedron in a larger one.
const NESTED: [[i32; 3]; 8] = [
    [0, 0, 0],
    [40, 0, 0],
    [0, 40, 0],
    [0, 0, 40],
    [2, 2, 2],
    [4, 2, 2],
    [2, 4, 2],
    [2, 2, 4],
];

const NESTED_FACES: [[u32; 3]; 8] = [
    [1, 3, 2],
    [1, 2, 4],
    [2, 3, 4],
    [1, 4, 3],
    [6, 7, 8],
    [5, 8, 7],
    [5, 6, 8],
    [5, 7, 6],
];

// The flat double pyramid, with a thin body inside: its edge 6 7 lies across the way of the edge from 1 to the new vertex.
const OVER_A_NEEDLE: [[i32; 3]; 9] = [
    [0, 0, 0],
    [24, 0, 0],
    [12, 20, 0],
    [12, 6, 4],
    [12, 6, -4],
    [6, 2, -1],
    [6, 2, 1],
    [7, 3, 0],
    [5, 3, 0],
];

const WITH_A_NEEDLE: [[u32; 3]; 10] = [
    [1, 2, 4],
    [2, 3, 4],
    [3, 1, 4],
    [2, 1, 5],
    [3, 2, 5],
    [1, 3, 5],
    [6, 8, 7],
    [6, 7, 9],
    [7, 8, 9],
    [6, 9, 8],
];

// A triangle with both of its sides.
const TRIANGLE: [[i32; 3]; 3] = [[0, 0, 0], [40, 0, 0], [0, 4, 0]];

const BOTH_SIDES: [[u32; 3]; 2] = [[1, 2, 3], [1, 3, 2]];

// Two tetrahedra with the vertex 1 in common, and the same with the second a quarter as wide, and with both.
pub(crate) const PAIR: [[i32; 3]; 7] = [
    [0, 0, 0],
    [8, 0, 0],
    [8, 4, 0],
    [8, 0, 4],
    [-8, 0, 0],
    [-8, 4, 0],
    [-8, 0, 4],
];

const SMALL: [[i32; 3]; 7] = [
    [0, 0, 0],
    [8, 0, 0],
    [8, 4, 0],
    [8, 0, 4],
    [-2, 0, 0],
    [-2, 1, 0],
    [-2, 0, 1],
];

const BOTH_SMALL: [[i32; 3]; 7] = [
    [0, 0, 0],
    [2, 0, 0],
    [2, 1, 0],
    [2, 0, 1],
    [-2, 0, 0],
    [-2, 1, 0],
    [-2, 0, 1],
];

pub(crate) const PAIR_FACES: [[u32; 3]; 8] = [
    [1, 3, 2],
    [1, 2, 4],
    [2, 3, 4],
    [1, 4, 3],
    [1, 6, 5],
    [1, 5, 7],
    [5, 6, 7],
    [1, 7, 6],
];

// Three tetrahedra with the vertex 1 in common, whose faces are mixed. The ways from it to the others add up to
// (89, -8, 9), (-88, -10, -7) and (-3, 116, -32).
const THREE: [[i32; 3]; 10] = [
    [5, -3, 2],
    [35, -2, 0],
    [35, -10, 5],
    [34, -5, 10],
    [-25, -1, 1],
    [-22, -12, 3],
    [-26, -6, -5],
    [3, 37, 5],
    [8, 38, -3],
    [1, 32, -28],
];

const THREE_FACES: [[u32; 3]; 12] = [
    [5, 7, 6],
    [1, 2, 3],
    [1, 8, 9],
    [1, 5, 6],
    [1, 3, 4],
    [1, 6, 7],
    [1, 9, 10],
    [1, 4, 2],
    [1, 7, 5],
    [1, 10, 8],
    [2, 4, 3],
    [8, 10, 9],
];

// Two boxes that face each other, and a bar between them.
const POINTS: [[i32; 3]; 20] = [
    [10, 0, 0],
    [10, 10, 10],
    [10, 10, 0],
    [10, 0, 10],
    [0, 0, 0],
    [0, 10, 0],
    [0, 10, 10],
    [0, 0, 10],
    [14, -5, -5],
    [14, 15, 15],
    [14, 15, -5],
    [14, -5, 15],
    [34, -5, -5],
    [34, 15, -5],
    [34, 15, 15],
    [34, -5, 15],
    [12, -6, 5],
    [12, 60, 4],
    [12, 60, 6],
    [13, 60, 5],
];

const FACES: [[u32; 3]; 28] = [
    [1, 3, 2],
    [1, 2, 4],
    [5, 8, 7],
    [5, 7, 6],
    [1, 4, 8],
    [1, 8, 5],
    [3, 6, 7],
    [3, 7, 2],
    [1, 5, 6],
    [1, 6, 3],
    [4, 2, 7],
    [4, 7, 8],
    [9, 12, 10],
    [9, 10, 11],
    [13, 14, 15],
    [13, 15, 16],
    [9, 13, 16],
    [9, 16, 12],
    [11, 10, 15],
    [11, 15, 14],
    [9, 11, 14],
    [9, 14, 13],
    [12, 16, 15],
    [12, 15, 10],
    [17, 19, 18],
    [17, 18, 20],
    [18, 19, 20],
    [17, 20, 19],
];

// Faces by their ids.
type Faces<'a> = &'a [(u32, [u32; 3])];

#[derive(Clone, Copy)]
enum Kind {
    Split,
    Flip,
    Collapse,
    Zip,
    Pinch,
}

// What is asked for, with its ids; the line of the log, the counts then, and faces that live then.
type Step<'a> = (Kind, [u32; 4], &'a [u8], [u32; 4], Faces<'a>);

fn asked(step: &Step) -> Asked {
    let [a, b, e, f] = step.1.map(|v| VertexId(v));
    match step.0 {
        Kind::Split => Asked::Split { a, b },
        Kind::Flip => Asked::Flip { a, b },
        Kind::Collapse => Asked::Collapse { a, b },
        Kind::Zip => Asked::Zip { a, b, e, f },
        Kind::Pinch => Asked::Pinch { v: a },
    }
}

// The line of an edit.
fn line_of(alloc: Global, what: Asked, done: Edit) -> Result<Vec<u8>, NoMemory> {
    let line = match done {
        Edit::Done(change) => LogLine::Did(change),
        Edit::No(why) => LogLine::No { what, why },
    };
    let mut text = Vec::new(alloc);
    print_line(&line, &mut text)?;
    Ok(text)
}

// What is told of the edit that is asked for.
fn told<S: Surface>(alloc: Global, mesh: &mut S, step: &Step) -> Result<Vec<u8>, NoMemory>
    requires closed { IsClosed (S.mesh mesh.old) }
    requires clear { IsClearMesh (S.mesh mesh.old) }
    ensures closed { IsClosed (S.mesh mesh.new) }
    ensures clear { IsClearMesh (S.mesh mesh.new) }
{
    let done = edit(alloc, mesh, 6, asked(step))?;
    line_of(alloc, asked(step), done)
}

fn assert_step<S: Surface>(
    rt: &impl Abort,
    alloc: Global,
    mesh: &mut S,
    step: &Step,
) -> Result<(), NoMemory>
    requires closed { IsClosed (S.mesh mesh.old) }
    requires clear { IsClearMesh (S.mesh mesh.old) }
    ensures closed { IsClosed (S.mesh mesh.new) }
    ensures clear { IsClearMesh (S.mesh mesh.new) }
{
    let found = told(alloc, mesh, step)?;
    assert_bytes(rt, found.as_slice(), step.2);
    assert_same(rt, &counts(mesh), &step.3);
    assert!(rt; has_faces(mesh, step.4));
    Ok(())
}

// The steps, one after another, each of what the one before has left.
fn assert_steps<S: Surface>(
    rt: &impl Abort,
    alloc: Global,
    mesh: &mut S,
    steps: &[Step],
) -> Result<(), NoMemory>
    requires closed { IsClosed (S.mesh mesh.old) }
    requires clear { IsClearMesh (S.mesh mesh.old) }
{
    for step in steps {
        assert_step(rt, alloc, mesh, step)?;
    }
    Ok(())
}

// The faces of the tetrahedron after the split of 1 2.
const SPLIT_FACES: [(u32, [u32; 3]); 6] = [
    (3, [2, 3, 4]),
    (4, [1, 4, 3]),
    (5, [1, 5, 4]),
    (6, [5, 2, 4]),
    (7, [2, 5, 3]),
    (8, [5, 1, 3]),
];

// The faces of the flat double pyramid after the flip of 1 2.
const THERE: [(u32, [u32; 3]); 6] = [
    (2, [2, 3, 4]),
    (3, [3, 1, 4]),
    (5, [3, 2, 5]),
    (6, [1, 3, 5]),
    (7, [1, 5, 4]),
    (8, [2, 4, 5]),
];

// After that of 4 5, which makes the two faces that were dropped again, turned.
const BACK: [(u32, [u32; 3]); 6] = [
    (2, [2, 3, 4]),
    (3, [3, 1, 4]),
    (5, [3, 2, 5]),
    (6, [1, 3, 5]),
    (9, [4, 1, 2]),
    (10, [5, 2, 1]),
];

// What is left of the octahedron: the ids 13 and 14 were given to faces that went with their opposites.
const OCTAHEDRON_LEFT: [(u32, [u32; 3]); 6] = [
    (9, [3, 4, 5]),
    (10, [4, 3, 6]),
    (11, [4, 1, 5]),
    (12, [1, 4, 6]),
    (15, [1, 3, 5]),
    (16, [3, 1, 6]),
];

// The two tetrahedra, parted.
const PAIR_MADE: [(u32, [u32; 3]); 6] = [
    (1, [1, 3, 2]),
    (4, [1, 4, 3]),
    (7, [5, 6, 7]),
    (9, [8, 6, 5]),
    (10, [8, 5, 7]),
    (11, [8, 7, 6]),
];

// The three, parted.
const THREE_MADE: [(u32, [u32; 3]); 8] = [
    (2, [1, 2, 3]),
    (8, [1, 4, 2]),
    (13, [11, 8, 9]),
    (14, [11, 9, 10]),
    (15, [11, 10, 8]),
    (16, [12, 5, 6]),
    (17, [12, 6, 7]),
    (18, [12, 7, 5]),
];

// The ends are no edge, share vertices or have one fan, and the other edge is there; then 1 2 is split.
const OF_TETRAHEDRON: [Step; 6] = [
    (
        Kind::Split,
        [1, 1, 0, 0],
        b"no split 1 1 noedge\n",
        [4, 4, 5, 5],
        &[],
    ),
    (
        Kind::Split,
        [1, 5, 0, 0],
        b"no split 1 5 noedge\n",
        [4, 4, 5, 5],
        &[],
    ),
    (
        Kind::Zip,
        [1, 2, 3, 4],
        b"no zip 1 2 3 4 shared\n",
        [4, 4, 5, 5],
        &[],
    ),
    (
        Kind::Pinch,
        [1, 0, 0, 0],
        b"no pinch 1 onefan\n",
        [4, 4, 5, 5],
        &[],
    ),
    (
        Kind::Flip,
        [1, 2, 0, 0],
        b"no flip 1 2 edge\n",
        [4, 4, 5, 5],
        &[],
    ),
    (
        Kind::Split,
        [2, 1, 0, 0],
        b"split 1 2 5 2 0 0\n",
        [5, 6, 6, 9],
        &SPLIT_FACES,
    ),
];

// The new vertex would meet the second body.
const OF_NEAR: [Step; 2] = [
    (
        Kind::Split,
        [1, 5, 0, 0],
        b"no split 1 5 noedge\n",
        [8, 8, 9, 9],
        &[],
    ),
    (
        Kind::Split,
        [1, 2, 0, 0],
        b"no split 1 2 hit 1 9 5\n",
        [8, 8, 9, 9],
        &[(1, [1, 3, 2]), (2, [1, 2, 4])],
    ),
];

// The edge 1 2 is crowded, be it named first or last, and whether vertices are shared or not.
const OF_JOINED: [Step; 6] = [
    (
        Kind::Split,
        [1, 2, 0, 0],
        b"no split 1 2 crowded\n",
        [10, 12, 11, 13],
        &[],
    ),
    (
        Kind::Flip,
        [2, 1, 0, 0],
        b"no flip 2 1 crowded\n",
        [10, 12, 11, 13],
        &[],
    ),
    (
        Kind::Zip,
        [1, 2, 7, 8],
        b"no zip 1 2 7 8 crowded\n",
        [10, 12, 11, 13],
        &[],
    ),
    (
        Kind::Zip,
        [8, 7, 2, 1],
        b"no zip 8 7 2 1 crowded\n",
        [10, 12, 11, 13],
        &[],
    ),
    (
        Kind::Zip,
        [1, 2, 3, 4],
        b"no zip 1 2 3 4 crowded\n",
        [10, 12, 11, 13],
        &[],
    ),
    (
        Kind::Zip,
        [1, 3, 2, 4],
        b"no zip 1 3 2 4 shared\n",
        [10, 12, 11, 13],
        &[],
    ),
];

// A tetrahedron goes whole, also with the same turned over. Each face at 2 that does not hold 1 takes an id.
const ONE_COLLAPSES: [Step; 1] = [(
    Kind::Collapse,
    [2, 1, 0, 0],
    b"collapse 1 2 2 0 0\n",
    [0, 0, 5, 6],
    &[],
)];

const BOTH_COLLAPSE: [Step; 1] = [(
    Kind::Collapse,
    [2, 1, 0, 0],
    b"collapse 1 2 2 0 0\n",
    [0, 0, 5, 11],
    &[],
)];

// Two pairs of opposite faces go, and with them 7 and 8. The edge 1 4 and the face 2 3 5 touch at the end only.
const OF_OCTAHEDRON: [Step; 1] = [(
    Kind::Collapse,
    [1, 2, 0, 0],
    b"collapse 1 2 4 4 0\n",
    [5, 6, 9, 17],
    &OCTAHEDRON_LEFT,
)];

// No edge, and one id twice; then two faces would be 1 4 3.
const OF_LINKED: [Step; 3] = [
    (
        Kind::Collapse,
        [1, 6, 0, 0],
        b"no collapse 1 6 noedge\n",
        [8, 12, 9, 13],
        &[],
    ),
    (
        Kind::Collapse,
        [1, 1, 0, 0],
        b"no collapse 1 1 noedge\n",
        [8, 12, 9, 13],
        &[],
    ),
    (
        Kind::Collapse,
        [2, 1, 0, 0],
        b"no collapse 2 1 doubled\n",
        [8, 12, 9, 13],
        &[],
    ),
];

// The face 1 4 3 would sweep over the edge 5 6 of the inner one.
const OF_NESTED: [Step; 1] = [(
    Kind::Collapse,
    [1, 2, 0, 0],
    b"no collapse 1 2 hit 5 6 4\n",
    [8, 8, 9, 9],
    &[],
)];

// No edge, one id twice, and an id that no vertex has; then there and back.
const OF_FLAT: [Step; 5] = [
    (
        Kind::Flip,
        [4, 5, 0, 0],
        b"no flip 4 5 noedge\n",
        [5, 6, 6, 7],
        &[],
    ),
    (
        Kind::Flip,
        [3, 3, 0, 0],
        b"no flip 3 3 noedge\n",
        [5, 6, 6, 7],
        &[],
    ),
    (
        Kind::Flip,
        [1, 9, 0, 0],
        b"no flip 1 9 noedge\n",
        [5, 6, 6, 7],
        &[],
    ),
    (
        Kind::Flip,
        [2, 1, 0, 0],
        b"flip 1 2\n",
        [5, 6, 6, 9],
        &THERE,
    ),
    (
        Kind::Flip,
        [4, 5, 0, 0],
        b"flip 4 5\n",
        [5, 6, 6, 11],
        &BACK,
    ),
];

// The new vertex is 10. The edge 1 10 sweeps right over the needle, whose faces begin with 7.
const OVER_THE_NEEDLE: [Step; 1] = [(
    Kind::Flip,
    [1, 2, 0, 0],
    b"no flip 1 2 hit 1 10 7\n",
    [9, 10, 10, 11],
    &[(1, [1, 2, 4])],
)];

// The opposite vertices are one.
const OF_TRIANGLE: [Step; 1] = [(
    Kind::Flip,
    [2, 1, 0, 0],
    b"no flip 2 1 edge\n",
    [3, 2, 4, 3],
    &[],
)];

// A vertex with one fan, one with none, and one with two.
const OF_PAIR: [Step; 3] = [
    (
        Kind::Pinch,
        [2, 0, 0, 0],
        b"no pinch 2 onefan\n",
        [7, 8, 8, 9],
        &[],
    ),
    (
        Kind::Pinch,
        [9, 0, 0, 0],
        b"no pinch 9 onefan\n",
        [7, 8, 8, 9],
        &[],
    ),
    (
        Kind::Pinch,
        [1, 0, 0, 0],
        b"pinch 1 1 0 0 8 -1 0 0\n",
        [8, 8, 9, 12],
        &PAIR_MADE,
    ),
];

// The copy stays.
const OF_SMALL: [Step; 1] = [(
    Kind::Pinch,
    [1, 0, 0, 0],
    b"pinch 1 1 0 0 8 0 0 0\n",
    [8, 8, 9, 12],
    &PAIR_MADE,
)];

// The first of three fans keeps the vertex.
const OF_THREE: [Step; 1] = [(
    Kind::Pinch,
    [1, 0, 0, 0],
    b"pinch 1 8 -3 2 11 5 1 1 12 2 -3 2\n",
    [12, 12, 13, 19],
    &THREE_MADE,
)];

// One would go through the other.
const OF_BOTH_SMALL: [Step; 1] = [(
    Kind::Pinch,
    [1, 0, 0, 0],
    b"no pinch 1 hit 1 2 9\n",
    [7, 8, 8, 9],
    &[(1, [1, 3, 2]), (4, [1, 4, 3])],
)];

// The bar meets three of the tunnels, and in the last that is tried the edge 1 10 meets a face.
const OF_BOXES: [Step; 4] = [
    (
        Kind::Zip,
        [1, 2, 9, 10],
        b"no zip 1 2 9 10 hit 1 10 29\n",
        [20, 28, 21, 29],
        &[],
    ),
    (
        Kind::Zip,
        [1, 2, 3, 4],
        b"no zip 1 2 3 4 noedge\n",
        [20, 28, 21, 29],
        &[],
    ),
    (
        Kind::Zip,
        [1, 2, 2, 3],
        b"no zip 1 2 2 3 shared\n",
        [20, 28, 21, 29],
        &[],
    ),
    (
        Kind::Zip,
        [1, 1, 9, 10],
        b"no zip 1 1 9 10 noedge\n",
        [20, 28, 21, 29],
        &[],
    ),
];

// A mesh by its points and faces, and the steps.
type Case<'a> = (&'a [[i32; 3]], &'a [[u32; 3]], &'a [Step<'a>]);

const CASES: [Case; 16] = [
    (&TETRAHEDRON, &TETRAHEDRON_FACES, &OF_TETRAHEDRON),
    (&NEAR, &TWO_TETRAHEDRA, &OF_NEAR),
    (&JOINED, &JOINED_FACES, &OF_JOINED),
    (&TETRAHEDRON, &TETRAHEDRON_FACES, &ONE_COLLAPSES),
    (&TETRAHEDRON, &BOTH_WAYS, &BOTH_COLLAPSE),
    (&OCTAHEDRON, &OCTAHEDRON_FACES, &OF_OCTAHEDRON),
    (&LINKED, &LINKED_FACES, &OF_LINKED),
    (&NESTED, &NESTED_FACES, &OF_NESTED),
    (&FLAT, &FLAT_FACES, &OF_FLAT),
    (&OVER_A_NEEDLE, &WITH_A_NEEDLE, &OVER_THE_NEEDLE),
    (&TRIANGLE, &BOTH_SIDES, &OF_TRIANGLE),
    (&PAIR, &PAIR_FACES, &OF_PAIR),
    (&SMALL, &PAIR_FACES, &OF_SMALL),
    (&THREE, &THREE_FACES, &OF_THREE),
    (&BOTH_SMALL, &PAIR_FACES, &OF_BOTH_SMALL),
    (&POINTS, &FACES, &OF_BOXES),
];

// The id that comes next after so many.
fn next_after(count: usize) -> u32 {
    match u32::try_from(count) {
        Ok(count) => count.wrapping_add(1),
        Err(_) => 0,
    }
}

fn assert_case(
    rt: &impl Abort,
    alloc: Global,
    points: &[[i32; 3]],
    faces: &[[u32; 3]],
    steps: &[Step],
) -> Result<(), NoMemory> {
    let lists = lists_at(alloc, points, faces, rt)?;
    let mut mesh = mesh_of(
        alloc,
        &lists,
        next_after(points.len()),
        next_after(faces.len()),
        rt,
    )?;
    assert_steps(rt, alloc, &mut mesh, steps)
}

#[test]
fn edits_are_done_or_refused_and_leave_the_mesh(rt: HostRuntime) -> Result<(), Fail> {
    for (points, faces, steps) in &CASES {
        assert_case(&rt, rt.alloc(), points, faces, steps)?;
    }
    Ok(())
}
