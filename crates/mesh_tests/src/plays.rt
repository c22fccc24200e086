//! A list of acts, each played on half-edges and on a journal, taken back and played again.
ghost use Rattle.std.specs.Prelude.{◌≡◌, IfOk, None, length, true};
ghost use Rattle.mesh_base.specs.Changes.{IsFresh};
ghost use Rattle.mesh_base.specs.declared.limits.Scale.TheVariants.{Standard};
ghost use Rattle.mesh_shape.specs.Shape.{shape_fault};
ghost use Rattle.mesh_play.specs.Play.{IsAllowed};

use crate::meshes::tetrahedron;
use grid_base::{ID_MAX, NoMemory, Point};
use half_mesh::HalfMesh;
use mesh_base::{FaceId, FaceIds, MeshLists, Scale, Surface, VertexId};
use mesh_journal::JournalMesh;
use mesh_play::{Act, Answer, Answers, Call, Question, play};
use mesh_shape::shape;
use std::alloc::Global;
use std::process::Abort;
use std::test::Fail;

/// An answer that is expected.
#[derive(Clone, Copy)]
enum Want {
    Done,
    Full,
    Number(u32),
    Truth(bool),
    Vertex(Option<VertexId>),
    Face(Option<FaceId>),
    At(Option<Point>),
    Corners(Option<[VertexId; 3]>),
    /// At most four, by rising id.
    Faces([Option<FaceId>; 4]),
    VertexMade(VertexId),
    FaceMade(FaceId),
}

/// An act, what it answers, and what a question answers before it and after it.
#[derive(Clone, Copy)]
struct Row {
    act: Act,
    done: Want,
    question: Question,
    before: Want,
    after: Want,
}

const FAR: Point = Point { x: 9, y: 9, z: 9 };

// Each row begins where the one before has left the mesh, the first at the tetrahedron.
const ROWS: [Row; 12] = [
    Row {
        act: Act::Place {
            v: VertexId(1),
            p: FAR,
        },
        done: Want::Done,
        question: Question::PointOf { v: VertexId(1) },
        before: Want::At(Some(Point { x: 0, y: 0, z: 0 })),
        after: Want::At(Some(FAR)),
    },
    Row {
        act: Act::MakeSolid { v: VertexId(1) },
        done: Want::Done,
        question: Question::IsSolid { v: VertexId(1) },
        before: Want::Truth(false),
        after: Want::Truth(true),
    },
    Row {
        act: Act::AddVertex { p: FAR },
        done: Want::VertexMade(VertexId(5)),
        question: Question::CountVertices,
        before: Want::Number(4),
        after: Want::Number(5),
    },
    Row {
        act: Act::AddVertex { p: FAR },
        done: Want::VertexMade(VertexId(6)),
        question: Question::NextVertex,
        before: Want::Number(6),
        after: Want::Number(7),
    },
    Row {
        act: Act::AddFace {
            c: [VertexId(5), VertexId(1), VertexId(2)],
        },
        done: Want::FaceMade(FaceId(5)),
        question: Question::CountRuns {
            u: VertexId(1),
            v: VertexId(2),
        },
        before: Want::Number(1),
        after: Want::Number(2),
    },
    Row {
        act: Act::DropFace { f: FaceId(2) },
        done: Want::Done,
        question: Question::FacesAt { v: VertexId(1) },
        before: Want::Faces([
            Some(FaceId(1)),
            Some(FaceId(2)),
            Some(FaceId(4)),
            Some(FaceId(5)),
        ]),
        after: Want::Faces([Some(FaceId(1)), Some(FaceId(4)), Some(FaceId(5)), None]),
    },
    Row {
        act: Act::DropFace { f: FaceId(5) },
        done: Want::Done,
        question: Question::RunFace {
            u: VertexId(1),
            v: VertexId(2),
            nth: 0,
        },
        before: Want::Face(Some(FaceId(5))),
        after: Want::Face(None),
    },
    Row {
        act: Act::DropVertex { v: VertexId(5) },
        done: Want::Done,
        question: Question::VertexAfter { v: 4 },
        before: Want::Vertex(Some(VertexId(5))),
        after: Want::Vertex(Some(VertexId(6))),
    },
    Row {
        act: Act::DropFace { f: FaceId(3) },
        done: Want::Done,
        question: Question::CornersOf { f: FaceId(3) },
        before: Want::Corners(Some([VertexId(2), VertexId(3), VertexId(4)])),
        after: Want::Corners(None),
    },
    Row {
        act: Act::DropFace { f: FaceId(1) },
        done: Want::Done,
        question: Question::FaceAfter { f: 0 },
        before: Want::Face(Some(FaceId(1))),
        after: Want::Face(Some(FaceId(4))),
    },
    Row {
        act: Act::DropFace { f: FaceId(4) },
        done: Want::Done,
        question: Question::CountFaces,
        before: Want::Number(1),
        after: Want::Number(0),
    },
    Row {
        act: Act::AddFace {
            c: [VertexId(1), VertexId(2), VertexId(3)],
        },
        done: Want::FaceMade(FaceId(6)),
        question: Question::NextFace,
        before: Want::Number(6),
        after: Want::Number(7),
    },
];

// With the last id given, no vertex is made.
const FULL: Row = Row {
    act: Act::AddVertex { p: FAR },
    done: Want::Full,
    question: Question::NextVertex,
    before: Want::Number(2_147_483_649),
    after: Want::Number(2_147_483_649),
};

fn is_list(faces: &FaceIds, wanted: [Option<FaceId>; 4]) -> bool {
    let mut same = faces.len() <= 4;
    for (i, f) in wanted.iter().enumerate() {
        same = same && faces.get(i).copied() == *f;
    }
    same
}

fn is_told(answer: &Answer, want: Want) -> bool {
    match (answer, want) {
        (Answer::Done, Want::Done) | (Answer::Full, Want::Full) => true,
        (Answer::Number { n }, Want::Number(wanted)) => *n == wanted,
        (Answer::Truth { holds }, Want::Truth(wanted)) => *holds == wanted,
        (Answer::VertexFound { v }, Want::Vertex(wanted)) => *v == wanted,
        (Answer::FaceFound { f }, Want::Face(wanted)) => *f == wanted,
        (Answer::PointFound { p }, Want::At(wanted)) => *p == wanted,
        (Answer::CornersFound { c }, Want::Corners(wanted)) => *c == wanted,
        (Answer::FacesFound { faces }, Want::Faces(wanted)) => is_list(faces, wanted),
        (Answer::VertexMade { v }, Want::VertexMade(wanted)) => *v == wanted,
        (Answer::FaceMade { f }, Want::FaceMade(wanted)) => *f == wanted,
        _ => false,
    }
}

/// Whether the corners live and differ, and no face runs along the first side.
pub(crate) fn is_fresh<S: Surface>(surface: &S, a: VertexId, b: VertexId, c: VertexId) -> bool
    ensures { result ≡ true →
        IsFresh (S.mesh surface.now) (record { first = a; second = b; third = c }) }
{
    if surface.point(a).is_none() {
        return false;
    }
    if surface.point(b).is_none() {
        return false;
    }
    if surface.point(c).is_none() {
        return false;
    }
    if a == b {
        return false;
    }
    if b == c {
        return false;
    }
    if c == a {
        return false;
    }
    surface.runs(a, b) == 0
}

/// Whether the act surely meets its condition.
fn is_allowed<S: Surface>(alloc: Global, surface: &S, act: &Act) -> Result<bool, NoMemory>
    ensures { IfOk result (λ yes. yes ≡ true → IsAllowed (S.mesh surface.now) act.now) }
{
    let allowed = match *act {
        Act::AddVertex { .. } => true,
        Act::AddFace { c } => is_fresh(surface, c[0], c[1], c[2]),
        Act::DropFace { f } => surface.corners(f).is_some(),
        Act::DropVertex { v } => {
            let mut faces = Vec::new(alloc);
            surface.faces_at(v, &mut faces)?;
            surface.point(v).is_some() && faces.is_empty()
        }
        Act::Place { v, .. } | Act::MakeSolid { v } => surface.point(v).is_some(),
    };
    Ok(allowed)
}

fn assert_told(rt: &impl Abort, answers: &Answers, wants: &[Want]) {
    assert_eq!(rt; answers.len(), wants.len());
    for (i, (answer, want)) in answers.as_slice().iter().zip(wants).enumerate() {
        assert!(rt; is_told(answer, *want), "at {i}");
    }
}

/// Does an act, takes it back, and does it again.
fn play_row<S: Surface>(
    rt: &impl Abort,
    alloc: Global,
    surface: &mut S,
    row: &Row,
) -> Result<(), NoMemory> {
    assert!(rt; is_allowed(alloc, surface, &row.act)?);
    let ask = Call::Ask {
        question: row.question,
    };
    let make = Call::Make { act: row.act };
    let calls = [
        Call::MakeMark,
        make,
        ask,
        Call::BackTo { nth: 0 },
        ask,
        make,
        ask,
        Call::Settle,
    ];
    let answers = play(alloc, surface, &calls)?;
    let wants = [
        Want::Done,
        row.done,
        row.after,
        Want::Done,
        row.before,
        row.done,
        row.after,
        Want::Done,
    ];
    assert_told(rt, &answers, &wants);
    Ok(())
}

/// The same of each row, one after another.
fn play_rows<S: Surface>(rt: &impl Abort, alloc: Global, surface: &mut S) -> Result<(), NoMemory> {
    for row in &ROWS {
        play_row(rt, alloc, surface, row)?;
    }
    Ok(())
}

// The lists of the tetrahedron, whose shape is good.
pub(crate) fn shaped(rt: &impl Abort, alloc: Global) -> Result<MeshLists, NoMemory>
    ensures { IfOk result (λ lists. shape_fault Standard (length lists.points) lists.faces ≡ None) }
{
    let lists = tetrahedron(alloc)?;
    assert!(rt; shape(alloc, Scale::Standard, &lists).is_ok());
    Ok(lists)
}

pub(crate) fn half_edges(rt: &impl Abort, alloc: Global) -> Result<HalfMesh, NoMemory> {
    let lists = shaped(rt, alloc)?;
    HalfMesh::of(alloc, Scale::Standard, &lists)
}

// A journal with these next ids.
pub(crate) fn journal(
    rt: &impl Abort,
    alloc: Global,
    next_vertex: u32,
    next_face: u32,
) -> Result<JournalMesh, NoMemory> {
    let lists = shaped(rt, alloc)?;
    assert!(rt; lists.points.len() < next_vertex as usize && next_vertex <= ID_MAX + 1);
    assert!(rt; lists.faces.len() < next_face as usize && next_face <= ID_MAX + 1);
    JournalMesh::of_numbered(alloc, Scale::Standard, &lists, next_vertex, next_face)
}

#[test]
fn half_edges_answer_and_go_back(rt: HostRuntime) -> Result<(), Fail> {
    let mut half = half_edges(&rt, rt.alloc())?;
    play_rows(&rt, rt.alloc(), &mut half)?;
    Ok(())
}

#[test]
fn journals_answer_and_go_back(rt: HostRuntime) -> Result<(), Fail> {
    let mut journal = journal(&rt, rt.alloc(), 5, 5)?;
    play_rows(&rt, rt.alloc(), &mut journal)?;
    Ok(())
}

#[test]
fn the_last_ids_are_given(rt: HostRuntime) -> Result<(), Fail> {
    let mut journal = journal(&rt, rt.alloc(), ID_MAX + 1, 5)?;
    play_row(&rt, rt.alloc(), &mut journal, &FULL)?;
    Ok(())
}
