//! The vertices and the faces of a mesh are read back.
ghost use Rattle.std.specs.Prelude.{◌≡◌, ◌↔◌, ◌≤◌, ◌++◌, true, false, length, drop, map, IfOk, IsTrue};
ghost use Rattle.std.specs.List.{filter};
ghost use Rattle.mesh_base.specs.Mesh.{is_solid};
ghost use Rattle.track_held.specs.Reading.{named_point, named_face, named_points, named_faces, solid_vertices, star_of, has_corner, beside_edge};

use crate::given::{NamedFace, NamedPoint};
use grid_base::{Items, NoMemory};
use mesh_base::{FaceId, Surface, VertexId, live_faces, live_vertices, point_of};
use std::alloc::Global;

/// Vertices and where they stand, in order.
pub type NamedPoints = Items<NamedPoint>;
/// Faces and their corners, in order.
pub type NamedFaces = Items<NamedFace>;
/// The ids of solid vertices, in order.
pub type SolidVertices = Items<u32>;

// A vertex, and where it stands.
fn named_point<S: Surface>(mesh: &S, v: VertexId) -> NamedPoint
    ensures { result ≡ named_point (S.mesh mesh.now) v }
{
    let p = point_of(mesh, v);
    NamedPoint {
        id: v.0,
        x: p.x,
        y: p.y,
        z: p.z,
    }
}

// A face, and its corners.
fn named_face<S: Surface>(mesh: &S, f: FaceId) -> NamedFace
    ensures { result ≡ named_face (S.mesh mesh.now) f }
{
    match mesh.corners(f) {
        Some(corners) => {
            let first = corners[0];
            let second = corners[1];
            let third = corners[2];
            NamedFace {
                id: f.0,
                a: first.0,
                b: second.0,
                c: third.0,
            }
        }
        None => NamedFace {
            id: f.0,
            a: 0,
            b: 0,
            c: 0,
        },
    }
}

// The vertices of these ids.
fn points_by_id<S: Surface>(
    alloc: Global,
    mesh: &S,
    ids: &[VertexId],
) -> Result<NamedPoints, NoMemory>
    ensures { IfOk result (λ rows. rows ≡ map (named_point (S.mesh mesh.now)) ids.now) }
{
    let mut rows = NamedPoints::new(alloc);
    for v in ids {
        rows.push(named_point(mesh, *v))?;
    }
    Ok(rows)
}

// The faces of these ids.
fn faces_by_id<S: Surface>(alloc: Global, mesh: &S, ids: &[FaceId]) -> Result<NamedFaces, NoMemory>
    ensures { IfOk result (λ rows. rows ≡ map (named_face (S.mesh mesh.now)) ids.now) }
{
    let mut rows = NamedFaces::new(alloc);
    for f in ids {
        rows.push(named_face(mesh, *f))?;
    }
    Ok(rows)
}

// Those of these vertices that are solid.
fn solid_among<S: Surface>(
    alloc: Global,
    mesh: &S,
    ids: &[VertexId],
) -> Result<SolidVertices, NoMemory>
    ensures { IfOk result (λ rows. rows ≡ filter (is_solid (S.mesh mesh.now)) ids.now) }
{
    let mut rows = SolidVertices::new(alloc);
    for v in ids {
        if mesh.solid(*v) {
            rows.push(v.0)?;
        }
    }
    Ok(rows)
}

/// The live vertices, by rising id, and where they stand. Refuses only where there is no memory.
pub fn named_points<S: Surface>(alloc: Global, mesh: &S) -> Result<NamedPoints, NoMemory>
    ensures { IfOk result (λ rows. rows ≡ named_points (S.mesh mesh.now)) }
{
    let ids = live_vertices(alloc, mesh)?;
    points_by_id(alloc, mesh, ids.as_slice())
}

/// The live faces, by rising id, and their corners. Refuses only where there is no memory.
pub fn named_faces<S: Surface>(alloc: Global, mesh: &S) -> Result<NamedFaces, NoMemory>
    ensures { IfOk result (λ rows. rows ≡ named_faces (S.mesh mesh.now)) }
{
    let ids = live_faces(alloc, mesh)?;
    faces_by_id(alloc, mesh, ids.as_slice())
}

/// The live vertices that are solid, by rising id. Refuses only where there is no memory.
pub fn solid_vertices<S: Surface>(alloc: Global, mesh: &S) -> Result<SolidVertices, NoMemory>
    ensures { IfOk result (λ rows. rows ≡ solid_vertices (S.mesh mesh.now)) }
{
    let ids = live_vertices(alloc, mesh)?;
    solid_among(alloc, mesh, ids.as_slice())
}

/// The faces that have a vertex as a corner, by rising id, and their corners, at the cost of these faces where the mesh is in half-edges. None
/// where it does not live. Refuses only where there is no memory.
pub fn star_of<S: Surface>(alloc: Global, mesh: &S, v: VertexId) -> Result<NamedFaces, NoMemory>
    ensures { IfOk result (λ rows. rows ≡ star_of (S.mesh mesh.now) v) }
{
    let mut ids = Vec::new(alloc);
    mesh.faces_at(v, &mut ids)?;
    faces_by_id(alloc, mesh, ids.as_slice())
}

// Whether a face has a vertex as a corner.
fn has_corner(row: &NamedFace, v: u32) -> bool
    ensures { result ≡ has_corner v row.now }
{
    row.a == v || row.b == v || row.c == v
}

// Those of these faces that have a vertex as a corner.
fn faces_having(alloc: Global, rows: &[NamedFace], v: u32) -> Result<NamedFaces, NoMemory>
    ensures { IfOk result (λ found. found ≡ filter (has_corner v) rows.now) }
{
    let mut found = NamedFaces::new(alloc);
    for row in rows {
        if has_corner(row, v) {
            found.push(*row)?;
        }
    }
    Ok(found)
}

/// The faces beside an edge: those that have both of its ends as corners, by rising id, and their corners. None where there is no edge between two
/// vertices. Refuses only where there is no memory.
pub fn beside_edge<S: Surface>(
    alloc: Global,
    mesh: &S,
    u: VertexId,
    v: VertexId,
) -> Result<NamedFaces, NoMemory>
    ensures { IfOk result (λ rows. rows ≡ beside_edge (S.mesh mesh.now) u v) }
{
    let star = star_of(alloc, mesh, u)?;
    faces_having(alloc, star.as_slice(), v.0)
}

/// Sets the first places to these rows, where there is room for all of them, and else none. Answers whether there is.
pub fn put_rows<T: Copy + Drop>(rows: &[T], into: &mut [T]) -> bool
    ensures fits { IsTrue result ↔ length rows.now ≤ length into.old }
    ensures put { result ≡ true → into.new ≡ rows.now ++ drop (length rows.now) into.old }
    ensures left { result ≡ false → into.new ≡ into.old }
{
    if into.len() < rows.len() {
        return false;
    }
    let (front, _) = into.split_at_mut(rows.len());
    front.copy_from_slice(rows);
    true
}
