//! Vertices and faces made where no limit is in the way, and midpoints.
ghost use Rattle.std.specs.Prelude.{◌≡◌, ◌≤◌, ◌+◌, ◌*ℤ◌, ◌+ℤ◌, map, length, unsigned_abs, OnOk, OnErr};
ghost use Rattle.grid_base.specs.declared.TheConstants.{BOX, HALF_MAX};
ghost use Rattle.grid_base.specs.Triples.{plus, IsWithin};
ghost use Rattle.grid_base.specs.Points.{position_of};
ghost use Rattle.mesh_base.specs.Changes.{corners_of, with_face, IsFresh, IsFullOfFaces, IsFullOfVertices, with_vertex};
ghost use Rattle.mesh_base.specs.Kept.{BeginsWith};
ghost use Rattle.edit_base.specs.Edges.{exact_mid, AreFresh};
ghost use Rattle.mesh_base.specs.Placements.{point_of};
ghost use Rattle.edit_base.specs.Required.{HasRoomFor};
ghost use Rattle.edit_base.specs.Clauses.{OnOkIs};
ghost use Rattle.edit_acts.specs.Making.{FacesAreMade, AllIsAsItWas};

use grid_base::{BOX, NoMemory, Point, Wide};
use mesh_base::{AddFault, Surface, VertexId, point_of};

/// Makes a vertex where no limit is in the way, and answers its id. Where memory is wanting, all is as it was.
pub fn make_vertex<S: Surface>(mesh: &mut S, at: Point) -> Result<VertexId, NoMemory>
    requires { ¬ IsFullOfVertices (S.mesh mesh.old) }
    ensures id { OnOkIs result (S.mesh mesh.old).next_vertex }
    ensures made { OnOk result (S.mesh mesh.new ≡ with_vertex (S.mesh mesh.old) at) }
    ensures left { OnErr result (AllIsAsItWas S.mesh S.kept mesh) }
    ensures marks { BeginsWith (S.kept mesh.new) (S.kept mesh.old) }
{
    match mesh.add_vertex(at) {
        Ok(v) => Ok(v),
        Err(AddFault::NoMemory) => Err(NoMemory),
        Err(AddFault::Full) => unreachable!(),
    }
}

/// Makes a face where no limit is in the way. Where memory is wanting, all is as it was.
pub fn make_face<S: Surface>(mesh: &mut S, c: [VertexId; 3]) -> Result<(), NoMemory>
    requires fresh { IsFresh (S.mesh mesh.old) (corners_of c) }
    requires room { ¬ IsFullOfFaces (S.mesh mesh.old) }
    ensures made { OnOk result (S.mesh mesh.new ≡ with_face (S.mesh mesh.old) (corners_of c)) }
    ensures left { OnErr result (AllIsAsItWas S.mesh S.kept mesh) }
    ensures marks { BeginsWith (S.kept mesh.new) (S.kept mesh.old) }
{
    match mesh.add_face(c) {
        Ok(_) => Ok(()),
        Err(AddFault::NoMemory) => Err(NoMemory),
        Err(AddFault::Full) => unreachable!(),
    }
}

/// Makes faces in order, where no limit is in the way. Where memory is wanting, some of them may be made.
pub fn make_faces<S: Surface>(mesh: &mut S, faces: &[[VertexId; 3]]) -> Result<(), NoMemory>
    requires fresh { AreFresh (S.mesh mesh.old) (map corners_of faces.now) }
    requires room { HasRoomFor (length faces.now) (S.mesh mesh.old) }
    ensures made { OnOk result (FacesAreMade S.mesh mesh (map corners_of faces.now)) }
    ensures marks { BeginsWith (S.kept mesh.new) (S.kept mesh.old) }
{
    for c in faces {
        make_face(mesh, *c)?;
    }
    Ok(())
}

fn sum(a: i32, b: i32) -> i128
    requires first { unsigned_abs a ≤ BOX }
    requires second { unsigned_abs b ≤ BOX }
    ensures value { result ≡ a +ℤ b }
    ensures within { unsigned_abs result ≤ HALF_MAX }
{
    i128::from(a + b)
}

/// The sum of two points, which is their midpoint in half units.
fn middle(p: Point, q: Point) -> Wide
    ensures value { result ≡ plus (position_of p) (position_of q) }
    ensures within { IsWithin HALF_MAX result }
{
    Wide {
        x: sum(p.x, q.x),
        y: sum(p.y, q.y),
        z: sum(p.z, q.z),
    }
}

/// The midpoint of two vertices, in half units.
pub fn exact_mid<S: Surface>(mesh: &S, u: VertexId, v: VertexId) -> Wide
    ensures value { result ≡ exact_mid (S.mesh mesh.now) u v }
    ensures within { IsWithin HALF_MAX result }
{
    middle(point_of(mesh, u), point_of(mesh, v))
}
