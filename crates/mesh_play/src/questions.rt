ghost use Rattle.std.specs.Prelude.{◌≡◌, IfOk};
ghost use Rattle.mesh_base.specs.Near.{faces_near};
ghost use Rattle.mesh_base.specs.Sides.{faces_at};
ghost use Rattle.mesh_play.specs.Play.{question_answer, faces_answer};

use crate::calls::{Answer, Question};
use grid_base::{Extent, NoMemory};
use mesh_base::{FaceIds, Surface, VertexId};
use std::alloc::Global;

/// The answer to a question.
pub(crate) fn answer_to<S: Surface>(
    alloc: Global,
    surface: &S,
    question: &Question,
) -> Result<Answer, NoMemory>
    ensures { IfOk result (λ answer. answer ≡ question_answer (S.mesh surface.now) question.now) }
{
    let answer = match *question {
        Question::CountVertices => Answer::Number {
            n: surface.vertices(),
        },
        Question::CountFaces => Answer::Number { n: surface.faces() },
        Question::NextVertex => Answer::Number {
            n: surface.next_vertex(),
        },
        Question::NextFace => Answer::Number {
            n: surface.next_face(),
        },
        Question::VertexAfter { v } => Answer::VertexFound {
            v: surface.vertex_after(v),
        },
        Question::FaceAfter { f } => Answer::FaceFound {
            f: surface.face_after(f),
        },
        Question::PointOf { v } => Answer::PointFound {
            p: surface.point(v),
        },
        Question::IsSolid { v } => Answer::Truth {
            holds: surface.solid(v),
        },
        Question::CornersOf { f } => Answer::CornersFound {
            c: surface.corners(f),
        },
        Question::CountRuns { u, v } => Answer::Number {
            n: surface.runs(u, v),
        },
        Question::RunFace { u, v, nth } => Answer::FaceFound {
            f: surface.run_face(u, v, nth),
        },
        Question::FacesAt { v } => faces_at_vertex(alloc, surface, v)?,
        Question::FacesNear { at } => faces_near_extent(alloc, surface, at)?,
    };
    Ok(answer)
}

/// The faces at a vertex.
fn faces_at_vertex<S: Surface>(alloc: Global, surface: &S, v: VertexId) -> Result<Answer, NoMemory>
    ensures { IfOk result (λ answer. answer ≡ faces_answer (faces_at (S.mesh surface.now) v)) }
{
    let mut found = Vec::new(alloc);
    surface.faces_at(v, &mut found)?;
    Ok(Answer::FacesFound {
        faces: FaceIds::from_vec(found),
    })
}

/// The faces near an extent.
fn faces_near_extent<S: Surface>(alloc: Global, surface: &S, at: Extent) -> Result<Answer, NoMemory>
    ensures { IfOk result (λ answer. answer ≡ faces_answer (faces_near (S.mesh surface.now) at)) }
{
    let mut found = Vec::new(alloc);
    surface.faces_near(at, &mut found)?;
    Ok(Answer::FacesFound {
        faces: FaceIds::from_vec(found),
    })
}
