//! Worked examples of what done edits are tested on.
ghost use Rattle.std.specs.Prelude.{IfOk, IfSome};
ghost use Rattle.mesh_base.specs.Placements.{IsClearMesh};
ghost use Rattle.mesh_base.specs.Sides.{IsClosed};
ghost use Rattle.edit_scaffold.specs.Made.{IsDone};

use edit_any::edit;
use edit_base::{Asked, Change, Edit};
use edit_scaffold::{lay, scaffold_of};
use grid_base::{DEPTH_MAX, NoMemory, Wide};
use line_text::ReadFault;
use mesh_base::{MeshLists, Scale, Surface, VertexId};
use mesh_journal::JournalMesh;
use mesh_plain::PlainMesh;
use mesh_shape::shape;
use motion_proof::{Claim, Way};
use obj_text::{obj_of, read_obj};
use pair_scan::first_meeting;
use std::alloc::Global;
use std::process::Abort;
use std::test::Fail;

// A tetrahedron whose edge 1 2 has its midpoint between two points of the grid.
const LONG: &[u8] = b"v 0 0 0\nv 5 0 0\nv 2 2 0\nv 2 0 2\nf 1 3 2\nf 1 2 4\nf 2 3 4\nf 1 4 3\n";

// The same with that edge split: the faces 1 and 2 are gone, and 5 to 8 stand round the vertex 5.
const LONG_SPLIT: &[u8] =
    b"v 0 0 0\nv 5 0 0\nv 2 2 0\nv 2 0 2\nv 2 0 0\nf 2 3 4\nf 1 4 3\nf 1 5 4\nf 5 2 4\nf 2 5 3\nf 5 1 3\n";

// A flat double pyramid over the triangle 1 2 3, in which 4 and 5 stand near the edge 1 2.
const FLAT: &[u8] =
    b"v 0 0 0\nv 24 0 0\nv 12 20 0\nv 12 6 4\nv 12 6 -4\nf 1 2 4\nf 2 3 4\nf 3 1 4\nf 2 1 5\nf 3 2 5\n\
f 1 3 5\n";

// The same with that edge split: the faces 1 and 4 are gone, and 7 to 10 stand round the vertex 6.
const FLAT_SPLIT: &[u8] =
    b"v 0 0 0\nv 24 0 0\nv 12 20 0\nv 12 6 4\nv 12 6 -4\nv 12 0 0\nf 2 3 4\nf 3 1 4\nf 3 2 5\nf 1 3 5\n\
f 1 6 4\nf 6 2 4\nf 2 6 5\nf 6 1 5\n";

// Two tetrahedra with the vertex 1 in common.
const JOINED: &[u8] =
    b"v 0 0 0\nv 8 0 0\nv 8 4 0\nv 8 0 4\nv -8 0 0\nv -8 4 0\nv -8 0 4\nf 1 3 2\nf 1 2 4\nf 2 3 4\nf 1 4 3\n\
f 1 6 5\nf 1 5 7\nf 5 6 7\nf 1 7 6\n";

// The same parted there: the faces 5, 6 and 8 are gone, and 9 to 11 have the vertex 8.
const PARTED: &[u8] =
    b"v 1 0 0\nv 8 0 0\nv 8 4 0\nv 8 0 4\nv -8 0 0\nv -8 4 0\nv -8 0 4\nv -1 0 0\nf 1 3 2\nf 1 2 4\nf 2 3 4\n\
f 1 4 3\nf 5 6 7\nf 8 6 5\nf 8 5 7\nf 8 7 6\n";

// Two boxes, one beside the other.
const BOXES: &[u8] =
    b"v 10 0 0\nv 10 10 10\nv 10 10 0\nv 10 0 10\nv 0 0 0\nv 0 10 0\nv 0 10 10\nv 0 0 10\nv 14 -5 -5\n\
v 14 15 15\nv 14 15 -5\nv 14 -5 15\nv 34 -5 -5\nv 34 15 -5\nv 34 15 15\nv 34 -5 15\nf 1 3 2 4\n\
f 5 8 7 6\nf 1 4 8 5\nf 3 6 7 2\nf 1 5 6 3\nf 4 2 7 8\nf 9 12 10 11\nf 13 14 15 16\nf 9 13 16 12\n\
f 11 10 15 14\nf 9 11 14 13\nf 12 16 15 10\n";

// On what an edit is tested: the mesh as a text, its next ids, the ways in half units and the claim.
#[derive(Clone, Copy)]
struct Tested<'a> {
    text: &'a [u8],
    next: (u32, u32),
    ways: &'a [(u32, [i64; 3], [i64; 3])],
    claim: Claim,
}

fn lists_of(alloc: Global, text: &[u8], rt: &impl Abort) -> Result<MeshLists, ReadFault> {
    assert!(rt; text.len() < 1_000);
    read_obj(alloc, text, 0)
}

fn mesh_of(alloc: Global, text: &[u8], rt: &impl Abort) -> Result<JournalMesh, Fail>
    ensures closed { IfOk result (λ s. IsClosed (⟦<JournalMesh as Surface>⟧.mesh s)) }
    ensures clear { IfOk result (λ s. IsClearMesh (⟦<JournalMesh as Surface>⟧.mesh s)) }
{
    let lists = lists_of(alloc, text, rt)?;
    let shaped = shape(alloc, Scale::Standard, &lists);
    assert!(rt; shaped.is_ok());
    let mesh = JournalMesh::of(alloc, Scale::Standard, &lists)?;
    let found = first_meeting(alloc, &mesh)?;
    assert!(rt; found.is_none());
    Ok(mesh)
}

// What an edit of the mesh changes, where it is done. The mesh stays.
fn change_of<S: Surface>(alloc: Global, mesh: &S, what: Asked) -> Result<Option<Change>, NoMemory>
    requires closed { IsClosed (S.mesh mesh.now) }
    requires clear { IsClearMesh (S.mesh mesh.now) }
    ensures { IfOk result (λ found. IfSome found (λ change. IsDone (S.mesh mesh.now) change)) }
{
    let mut copy = PlainMesh::copy_of(alloc, mesh)?;
    match edit(alloc, &mut copy, DEPTH_MAX, what)? {
        Edit::Done(change) => Ok(Some(change)),
        Edit::No(_) => Ok(None),
    }
}

fn whole(p: [i64; 3]) -> Wide {
    Wide {
        x: i128::from(p[0]),
        y: i128::from(p[1]),
        z: i128::from(p[2]),
    }
}

fn are_ways(ways: &[Way], list: &[(u32, [i64; 3], [i64; 3])]) -> bool {
    if ways.len() != list.len() {
        return false;
    }
    for (way, (v, start, end)) in ways.iter().zip(list) {
        let listed = Way {
            v: VertexId(*v),
            start: whole(*start),
            end: whole(*end),
        };
        if *way != listed {
            return false;
        }
    }
    true
}

// Whether these are the mesh, the ways and the claim.
fn is_tested_on<S: Surface>(
    alloc: Global,
    mesh: &S,
    ways: &[Way],
    claim: Claim,
    tested: Tested,
) -> Result<bool, NoMemory> {
    let text = obj_of(alloc, mesh, 0)?;
    Ok(
        text.as_slice() == tested.text
            && (mesh.next_vertex(), mesh.next_face()) == tested.next
            && are_ways(ways, tested.ways)
            && claim == tested.claim,
    )
}

// Whether a copy of the mesh is what the change is tested on; None where it moves nothing.
fn is_made(
    alloc: Global,
    mesh: &JournalMesh,
    change: &Change,
    tested: Option<Tested>,
) -> Result<bool, NoMemory>
    requires closed { IsClosed (⟦<JournalMesh as Surface>⟧.mesh mesh.now) }
    requires done { IsDone (⟦<JournalMesh as Surface>⟧.mesh mesh.now) change.now }
{
    match (scaffold_of(alloc, mesh, change)?, tested) {
        (Some(made), Some(t)) => is_tested_on(
            alloc,
            &made.mesh,
            made.ways.as_slice(),
            made.claim,
            t,
        ),
        (None, None) => Ok(true),
        _ => Ok(false),
    }
}

// Whether the mesh itself is made what the change is tested on, and is then taken back.
fn is_laid(
    alloc: Global,
    mesh: &mut JournalMesh,
    change: &Change,
    tested: Option<Tested>,
) -> Result<bool, NoMemory>
    requires closed { IsClosed (⟦<JournalMesh as Surface>⟧.mesh mesh.old) }
    requires done { IsDone (⟦<JournalMesh as Surface>⟧.mesh mesh.old) change.now }
{
    match (lay(alloc, mesh, change)?, tested) {
        (Some(laid), Some(t)) => {
            let same = is_tested_on(alloc, mesh, laid.ways.as_slice(), laid.claim, t)?;
            mesh.back_to(laid.mark);
            Ok(same)
        }
        (None, None) => Ok(true),
        _ => Ok(false),
    }
}

fn next_ids<S: Surface>(mesh: &S) -> (u32, u32) {
    (mesh.next_vertex(), mesh.next_face())
}

// Whether the change is tested on this, in a copy and in the mesh itself, and a return gives the mesh back.
fn is_tested_so(
    alloc: Global,
    mesh: &mut JournalMesh,
    change: &Change,
    tested: Option<Tested>,
) -> Result<bool, NoMemory>
    requires closed { IsClosed (⟦<JournalMesh as Surface>⟧.mesh mesh.old) }
    requires done { IsDone (⟦<JournalMesh as Surface>⟧.mesh mesh.old) change.now }
{
    let next = next_ids(mesh);
    let before = obj_of(alloc, mesh, 0)?;
    let is_so = is_made(alloc, mesh, change, tested)? && is_laid(alloc, mesh, change, tested)?;
    let after = obj_of(alloc, mesh, 0)?;
    Ok(is_so && after.as_slice() == before.as_slice() && next_ids(mesh) == next)
}

// Whether the edit that is asked for is done, and tested on this.
fn shows(
    alloc: Global,
    mesh: &mut JournalMesh,
    what: Asked,
    tested: Option<Tested>,
) -> Result<bool, NoMemory>
    requires closed { IsClosed (⟦<JournalMesh as Surface>⟧.mesh mesh.old) }
    requires clear { IsClearMesh (⟦<JournalMesh as Surface>⟧.mesh mesh.old) }
{
    match change_of(alloc, mesh, what)? {
        Some(change) => is_tested_so(alloc, mesh, &change, tested),
        None => Ok(false),
    }
}

const A: VertexId = VertexId(1);

const B: VertexId = VertexId(2);

const SPLIT: Tested = Tested {
    text: LONG_SPLIT,
    next: (6, 9),
    ways: &[(5, [5, 0, 0], [4, 0, 0])],
    claim: Claim::Along,
};

const FLIP: Tested = Tested {
    text: FLAT_SPLIT,
    next: (7, 11),
    ways: &[(6, [24, 0, 0], [24, 12, 0])],
    claim: Claim::Along,
};

const COLLAPSE: Tested = Tested {
    text: LONG,
    next: (5, 5),
    ways: &[(1, [0, 0, 0], [4, 0, 0]), (2, [10, 0, 0], [4, 0, 0])],
    claim: Claim::Before,
};

const PINCH: Tested = Tested {
    text: PARTED,
    next: (9, 12),
    ways: &[(1, [0, 0, 0], [2, 0, 0]), (8, [0, 0, 0], [-2, 0, 0])],
    claim: Claim::After,
};

const ZIP: Asked = Asked::Zip {
    a: A,
    b: B,
    e: VertexId(9),
    f: VertexId(10),
};

// A mesh, what is asked of it, and on what that is tested.
const CASES: [(&[u8], Asked, Option<Tested>); 5] = [
    (LONG, Asked::Split { a: A, b: B }, Some(SPLIT)),
    (FLAT, Asked::Flip { a: A, b: B }, Some(FLIP)),
    (LONG, Asked::Collapse { a: A, b: B }, Some(COLLAPSE)),
    (JOINED, Asked::Pinch { v: A }, Some(PINCH)),
    (BOXES, ZIP, None),
];

#[test]
fn done_edits_are_tested_on_their_scaffolds(rt: HostRuntime) -> Result<(), Fail> {
    for (i, (text, what, tested)) in CASES.iter().enumerate() {
        let mut mesh = mesh_of(rt.alloc(), text, &rt)?;
        let is_shown = shows(rt.alloc(), &mut mesh, *what, *tested)?;
        assert!(rt; is_shown, "case {i}");
    }
    Ok(())
}
