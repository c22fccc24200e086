//! Edges, and the two faces beside one.
ghost use Rattle.std.specs.Prelude.{◌≡◌, ◌≤◌, ◌&&◌, ℕ, min, max, nat_lt, is_some, IfSome};
ghost use Rattle.mesh_base.specs.Sides.{runs, IsClosed};
ghost use Rattle.mesh_base.specs.Pairs.{is_edge, is_crowded};
ghost use Rattle.edit_base.specs.Edges.{opposite_vertex, face_running, edge_of, opposite_beside, runs_both_ways, are_ends};

use mesh_base::{Corners, FaceId, Surface, VertexId};
use std::marker::Model;

/// An edge with the two faces beside it. `a` is its smaller end and `b` its larger; `left_face` is the face that runs from
/// `a` to `b`, with the opposite vertex `c`, and `right_face` the one that runs from `b` to `a`, with the opposite vertex `d`.
#[derive(Clone, Copy, Debug, PartialEq, Eq)]
pub struct EdgeFaces {
    pub a: VertexId,
    pub b: VertexId,
    pub c: VertexId,
    pub d: VertexId,
    pub left_face: FaceId,
    pub right_face: FaceId,
}

impl Model for EdgeFaces {
    ghost use Rattle.edit_base.specs.Edges.{Edge};

    ghost Value = { Edge };

    ghost view = { λ e. record {
      a = e.a;
      b = e.b;
      c = e.c;
      d = e.d;
      left_face = e.left_face;
      right_face = e.right_face;
    } };

    ghost inverse = { λ s. record {
      a = s.a;
      b = s.b;
      c = s.c;
      d = s.d;
      left_face = s.left_face;
      right_face = s.right_face;
    } };
}

/// Whether some face has both as neighbours.
pub fn is_edge<S: Surface>(mesh: &S, u: VertexId, v: VertexId) -> bool
    ensures { result ≡ is_edge (S.mesh mesh.now) u v }
{
    mesh.runs(u, v) > 0 || mesh.runs(v, u) > 0
}

/// Whether more than one face runs one way between the two.
pub fn is_crowded<S: Surface>(mesh: &S, u: VertexId, v: VertexId) -> bool
    ensures { result ≡ is_crowded (S.mesh mesh.now) u v }
{
    mesh.runs(u, v) > 1 || mesh.runs(v, u) > 1
}

/// The corner that is not one of two, of which the first is `u` and the other follows it.
fn opposite_vertex(c: Corners, u: VertexId) -> VertexId
    ensures { (v : ℕ) → result ≡ opposite_vertex c u v }
{
    if c.first == u {
        c.third
    } else if c.second == u {
        c.first
    } else {
        c.second
    }
}

/// A face, and a corner of it.
#[derive(Clone, Copy)]
struct FaceCorner {
    face: FaceId,
    corner: VertexId,
}

/// The first face that runs from `u` to `v`, with its opposite vertex.
fn face_beside<S: Surface>(mesh: &S, u: VertexId, v: VertexId) -> Option<FaceCorner>
    ensures face { IfSome result (λ f. f.face ≡ face_running (S.mesh mesh.now) u v) }
    ensures corner { IfSome result (λ f. f.corner ≡ opposite_beside (S.mesh mesh.now) u v) }
    ensures some { is_some result ≡ nat_lt 0 (runs (S.mesh mesh.now) u v) }
{
    let face = mesh.run_face(u, v, 0)?;
    let corners = mesh.corners(face)?;
    Some(FaceCorner {
        face,
        corner: opposite_vertex(Corners::of(corners), u),
    })
}

/// The same of an edge whose smaller end is the first.
fn beside_ordered<S: Surface>(mesh: &S, a: VertexId, b: VertexId) -> Option<EdgeFaces>
    requires { a ≤ b }
    ensures edge { IfSome result (λ e. e ≡ edge_of (S.mesh mesh.now) a b) }
    ensures some { is_some result ≡ runs_both_ways (S.mesh mesh.now) a b }
{
    let left_face = face_beside(mesh, a, b)?;
    let right_face = face_beside(mesh, b, a)?;
    Some(EdgeFaces {
        a,
        b,
        c: left_face.corner,
        d: right_face.corner,
        left_face: left_face.face,
        right_face: right_face.face,
    })
}

/// The edge of two ids in any order, with the faces beside it: the first that runs each way, by rising id. Some exactly
/// where there is one each way; in a closed mesh that is where the two are an edge.
pub fn edge_beside<S: Surface>(mesh: &S, u: VertexId, v: VertexId) -> Option<EdgeFaces>
    ensures edge { IfSome result (λ e. e ≡ edge_of (S.mesh mesh.now) u v) }
    ensures some { IsClosed (S.mesh mesh.now) → is_some result ≡ are_ends (S.mesh mesh.now) u v }
    ensures each_way { is_some result ≡ runs_both_ways (S.mesh mesh.now) (min u v) (max u v) }
{
    if u <= v {
        beside_ordered(mesh, u, v)
    } else {
        beside_ordered(mesh, v, u)
    }
}
