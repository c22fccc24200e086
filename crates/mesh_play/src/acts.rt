ghost use Rattle.std.specs.Prelude.{◌≡◌, IfOk, OnOk, OnErr};
ghost use Rattle.mesh_base.specs.Changes.{corners_of, IsFresh};
ghost use Rattle.mesh_base.specs.Kept.{BeginsWith};
ghost use Rattle.mesh_play.specs.Play.{mesh_after_act, act_answer, IsAllowed, IsUnchanged, more_vertex, more_face, vertex_answer, face_answer};

use crate::calls::{Act, Answer};
use grid_base::{NoMemory, Point};
use mesh_base::{AddFault, Surface, VertexId};

/// Does an act, and answers what was made. What was kept stays, and where memory is wanting nothing is changed.
pub fn do_act<S: Surface>(surface: &mut S, act: &Act) -> Result<Answer, NoMemory>
    requires { IsAllowed (S.mesh surface.old) act.now }
    ensures answer { IfOk result (λ answer. answer ≡ act_answer (S.mesh surface.old) act.now) }
    ensures mesh { OnOk result (S.mesh surface.new ≡ mesh_after_act (S.mesh surface.old) act.now) }
    ensures marks { BeginsWith (S.kept surface.new) (S.kept surface.old) }
    ensures err { OnErr result (IsUnchanged S.mesh S.kept surface) }
{
    match *act {
        Act::AddVertex { p } => add_vertex(surface, p),
        Act::AddFace { c } => add_face(surface, c),
        Act::DropFace { f } => {
            surface.drop_face(f)?;
            Ok(Answer::Done)
        }
        Act::DropVertex { v } => {
            surface.drop_vertex(v)?;
            Ok(Answer::Done)
        }
        Act::Place { v, p } => {
            surface.place(v, p)?;
            Ok(Answer::Done)
        }
        Act::MakeSolid { v } => {
            surface.make_solid(v)?;
            Ok(Answer::Done)
        }
    }
}

/// Makes a vertex, or says that the mesh is full.
fn add_vertex<S: Surface>(surface: &mut S, p: Point) -> Result<Answer, NoMemory>
    ensures answer { IfOk result (λ answer. answer ≡ vertex_answer (S.mesh surface.old)) }
    ensures mesh { OnOk result (S.mesh surface.new ≡ more_vertex (S.mesh surface.old) p) }
    ensures marks { BeginsWith (S.kept surface.new) (S.kept surface.old) }
    ensures err { OnErr result (IsUnchanged S.mesh S.kept surface) }
{
    match surface.add_vertex(p) {
        Ok(v) => Ok(Answer::VertexMade { v }),
        Err(AddFault::Full) => Ok(Answer::Full),
        Err(AddFault::NoMemory) => Err(NoMemory),
    }
}

/// Makes a face, or says that the mesh is full.
fn add_face<S: Surface>(surface: &mut S, c: [VertexId; 3]) -> Result<Answer, NoMemory>
    requires { IsFresh (S.mesh surface.old) (corners_of c) }
    ensures answer { IfOk result (λ answer. answer ≡ face_answer (S.mesh surface.old)) }
    ensures mesh { OnOk result (S.mesh surface.new ≡ more_face (S.mesh surface.old) c) }
    ensures marks { BeginsWith (S.kept surface.new) (S.kept surface.old) }
    ensures err { OnErr result (IsUnchanged S.mesh S.kept surface) }
{
    match surface.add_face(c) {
        Ok(f) => Ok(Answer::FaceMade { f }),
        Err(AddFault::Full) => Ok(Answer::Full),
        Err(AddFault::NoMemory) => Err(NoMemory),
    }
}
