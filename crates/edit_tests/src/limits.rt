//! Edits of a mesh at its limits.
use crate::meshes::{
    FLAT, FLAT_FACES, assert_same, counts, has_faces, lists_at, mesh_of, reason_of,
};
use edit_any::edit;
use edit_base::{Asked, Why};
use grid_base::{NoMemory, Point};
use mesh_base::{MeshLists, VertexId};
use std::alloc::Global;
use std::process::Abort;
use std::test::Fail;

// The flat double pyramid, with as many vertices beside it as make this many.
fn flat(alloc: Global, vertices: u32, rt: &impl Abort) -> Result<MeshLists, NoMemory> {
    let mut lists = lists_at(alloc, &FLAT, &FLAT_FACES, rt)?;
    for _ in 5..vertices {
        lists.points.push(Point { x: 0, y: 0, z: 0 })?;
    }
    Ok(lists)
}

// How many vertices there are, the next ids, and whether a split or a flip is too much: both take one vertex more for a while, with
// an id, and four ids of faces.
const CASES: [(u32, (u32, u32), bool); 6] = [
    // the greatest number of vertices
    (65_535, (65_536, 7), false),
    (65_536, (65_537, 7), true),
    // the last id of a vertex
    (5, (2_147_483_648, 7), false),
    (5, (2_147_483_649, 7), true),
    // the last four ids of faces, and the last three
    (5, (6, 2_147_483_645), false),
    (5, (6, 2_147_483_646), true),
];

const LEFT: [(u32, [u32; 3]); 6] = [
    (1, [1, 2, 4]),
    (2, [2, 3, 4]),
    (3, [3, 1, 4]),
    (4, [2, 1, 5]),
    (5, [3, 2, 5]),
    (6, [1, 3, 5]),
];

// The edits that need that much.
const BOTH: [Asked; 2] = [
    Asked::Split {
        a: VertexId(1),
        b: VertexId(2),
    },
    Asked::Flip {
        a: VertexId(1),
        b: VertexId(2),
    },
];

// A full mesh refuses the edit and is left as it was, and another is not.
fn assert_limit(
    rt: &impl Abort,
    alloc: Global,
    what: Asked,
    (vertices, next, is_full): (u32, (u32, u32), bool),
) -> Result<(), NoMemory> {
    let lists = flat(alloc, vertices, rt)?;
    let mut mesh = mesh_of(alloc, &lists, next.0, next.1, rt)?;
    let before = counts(&mesh);
    let why = reason_of(&edit(alloc, &mut mesh, 6, what)?);
    let same = before == counts(&mesh) && has_faces(&mesh, &LEFT);
    let wanted = if is_full { Some(Why::Full) } else { None };
    assert_same(
        rt,
        &(before, why, same),
        &([vertices, 6, next.0, next.1], wanted, is_full),
    );
    Ok(())
}

#[test]
fn a_full_mesh_is_not_split_or_flipped(rt: HostRuntime) -> Result<(), Fail> {
    for case in &CASES {
        for what in &BOTH {
            assert_limit(&rt, rt.alloc(), *what, *case)?;
        }
    }
    Ok(())
}
