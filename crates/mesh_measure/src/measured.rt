//! The components that a mesh is in, each measured.
ghost use Rattle.std.specs.Prelude.{◌≡◌, ◌≤◌, ◌<◌, ◌*◌, ◌^◌, pos, ◌+ℤ◌, ◌-ℤ◌, ◌++◌, ◌∷◌, ℕ, [], true, length, map, slice_index, unsigned_abs, IfOk, OnOk, if◌then◌else◌};
ghost use Rattle.std.specs.FinMap as finite;
ghost use Rattle.grid_base.specs.declared.TheConstants.{VERTICES_MAX, FACES_MAX};
ghost use Rattle.mesh_base.specs.Sides.{has_corner};
ghost use Rattle.edit_base.specs.Classes.{is_one_of, class_of};
ghost use Rattle.edit_base.specs.Edges.{corners_at};
ghost use Rattle.mesh_measure.specs.Components.{edges_above, volume6_of, euler_of, component_of, each_component, vertices_of};
ghost use Rattle.mesh_measure.specs.Shape.{components, share_vertex};
ghost use Rattle.mesh_measure.specs.Walk.{has_met, Spreads};

use crate::component_faces::{faces_from, vertices_of};
use crate::edge_number::edges_from;
use crate::traversal::spread;
use crate::volume::face_part;
use edit_acts::corners_at;
use grid_base::{Items, NoMemory};
use mesh_base::{FaceId, Surface, VertexId, live_faces};
use std::alloc::Global;
use std::collections::HashSet;

/// A component of a mesh: the faces to which a chain leads from one of them, in which each shares a vertex with the next.
#[derive(Clone, Copy, Debug, PartialEq, Eq)]
pub struct Component {
    /// The least id of its vertices.
    pub vertex: u32,
    /// How many faces it has.
    pub faces: u32,
    /// Six times the volume that they enclose, in cubes of a grid unit, with its sign.
    pub volume6: i128,
    /// Its Euler number: its vertices, minus its edges, plus its faces.
    pub euler: i64,
}

/// The components of a mesh.
pub type Components = Items<Component>;

// How many edges lead from some vertices to those above them.
fn edges_above<S: Surface>(alloc: Global, mesh: &S, vertices: &[u32]) -> Result<usize, NoMemory>
    requires { length vertices.now ≤ VERTICES_MAX }
    ensures { IfOk result (λ n. n ≡ length (edges_above (S.mesh mesh.now) vertices.now)) }
{
    let mut faces = Vec::new(alloc);
    let mut near = Vec::new(alloc);
    let mut count = 0;
    for v in vertices {
        let more = edges_from(mesh, VertexId(*v), &mut faces, &mut near)?;
        count += more;
    }
    Ok(count)
}

// Six times the volume of some faces.
fn volume6_of<S: Surface>(mesh: &S, faces: &[u32]) -> i128
    requires { length faces.now ≤ FACES_MAX }
    ensures value { result ≡ volume6_of (S.mesh mesh.now) faces.now }
    ensures within { unsigned_abs result < 2 ^ 110 }
{
    let mut sum = 0;
    for f in faces {
        sum += face_part(mesh, FaceId(*f));
    }
    sum
}

// So many vertices, minus so many edges, plus so many faces.
fn euler_by(vertices: usize, edges: usize, faces: usize) -> i64
    requires vertices { vertices ≤ VERTICES_MAX }
    requires edges { edges ≤ (VERTICES_MAX * VERTICES_MAX) }
    requires faces { faces ≤ FACES_MAX }
    ensures { result ≡ pos vertices -ℤ pos edges +ℤ pos faces }
{
    vertices as i64 - edges as i64 + faces as i64
}

// The Euler number of some faces, of which these are the vertices.
fn euler_of<S: Surface>(
    alloc: Global,
    mesh: &S,
    vertices: &[u32],
    faces: &[u32],
) -> Result<i64, NoMemory>
    requires few { length faces.now ≤ FACES_MAX }
    requires vertices { vertices.now ≡ vertices_of (S.mesh mesh.now) faces.now }
    ensures { IfOk result (λ n. n ≡ euler_of (S.mesh mesh.now) faces.now) }
{
    let edges = edges_above(alloc, mesh, vertices)?;
    Ok(euler_by(vertices.len(), edges, faces.len()))
}

// The component of these faces.
fn component_of<S: Surface>(alloc: Global, mesh: &S, faces: &[u32]) -> Result<Component, NoMemory>
    requires few { length faces.now ≤ FACES_MAX }
    requires live { (f : ℕ) → is_one_of faces.now f ≡ true →
        is_one_of (finite.keys (S.mesh mesh.now).faces) f ≡ true }
    ensures { IfOk result (λ component. component ≡ component_of (S.mesh mesh.now) faces.now) }
{
    let vertices = vertices_of(alloc, mesh, faces)?;
    let euler = euler_of(alloc, mesh, vertices.as_slice(), faces)?;
    Ok(Component {
        vertex: least(vertices.as_slice()),
        faces: faces.len() as u32,
        volume6: volume6_of(mesh, faces),
        euler,
    })
}

// The first of some numbers, and 0 where there is none.
fn least(rising: &[u32]) -> u32
    ensures { result ≡ slice_index rising.now 0 }
{
    match rising.first() {
        Some(v) => *v,
        None => 0,
    }
}

// Puts the component of a face, of which this is a corner, at the end of the list, unless the corner was met before. Afterwards the
// vertices of the component are met.
fn put_component<S: Surface>(
    alloc: Global,
    mesh: &S,
    f: FaceId,
    v: VertexId,
    met: &mut HashSet<u32>,
    all: &mut Components,
) -> Result<(), NoMemory>
    requires live { is_one_of (finite.keys (S.mesh mesh.now).faces) f ≡ true }
    requires corner { has_corner (corners_at (S.mesh mesh.now) f) v ≡ true }
    ensures all { let m = S.mesh mesh.now in
        let component = component_of m (class_of (share_vertex m) (finite.keys m.faces) f) in
        OnOk result (all.new ≡
        (if has_met met.old v then all.old else all.old ++ component ∷ [])) }
    ensures met { OnOk result (Spreads (S.mesh mesh.now) v met.old met.new) }
{
    if met.contains(&v.0) {
        return Ok(());
    }
    let faces = faces_from(alloc, mesh, v)?;
    let component = component_of(alloc, mesh, faces.as_slice())?;
    all.push(component)?;
    spread(alloc, mesh, v, met)?;
    Ok(())
}

/// The components, in order of their least faces: two faces that share a vertex are in one component, and so on. A vertex without a
/// face is in none. Takes time in proportion to the faces and the logarithm of the most faces of a component, as far as the calls of
/// the mesh do.
pub fn each_component<S: Surface>(alloc: Global, mesh: &S) -> Result<Components, NoMemory>
    ensures value { IfOk result (λ all. all ≡ each_component (S.mesh mesh.now)) }
    ensures as_many { IfOk result (λ all. length all ≡ components (S.mesh mesh.now)) }
{
    let faces = live_faces(alloc, mesh)?;
    let mut met = HashSet::new(alloc);
    let mut all = Components::new(alloc);
    for f in faces.as_slice() {
        let first = corners_at(mesh, *f).first;
        put_component(alloc, mesh, *f, first, &mut met, &mut all)?;
    }
    Ok(all)
}
