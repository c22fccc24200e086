//! The faces of a mesh in a list.
ghost use Rattle.std.specs.Prelude.{◌≡◌, IsTrue, IfOk};
ghost use Rattle.std.specs.Option.{option_map};
ghost use Rattle.std.specs.FinMap as finite;

use grid_base::{Items, NoMemory};
use mesh_base::{Corners, FaceId, Surface, live_faces};
use std::alloc::Global;

/// Faces by their ids and corners.
pub(crate) type Faces = Items<(FaceId, Corners)>;

// A face by its id and corners, if it is live.
fn face_of<S: Surface>(mesh: &S, f: FaceId) -> Option<(FaceId, Corners)>
    ensures { result ≡ option_map (λ c. (f, c)) (finite.get (S.mesh mesh.now).faces f) }
{
    match mesh.corners(f) {
        Some(ids) => Some((f, Corners::of(ids))),
        None => None,
    }
}

/// The faces of a mesh, by rising id. Refuses only where there is no memory.
pub(crate) fn faces_of<S: Surface>(alloc: Global, mesh: &S) -> Result<Faces, NoMemory>
    ensures { IfOk result (λ faces. faces ≡ finite.entries (S.mesh mesh.now).faces) }
{
    let ids = live_faces(alloc, mesh)?;
    let mut faces = Faces::new(alloc);
    for f in ids.as_slice() {
        if let Some(face) = face_of(mesh, *f) {
            faces.push(face)?;
        }
    }
    Ok(faces)
}

// Whether the corners are the same, each in its place.
fn have_same_corners(c: &Corners, d: &Corners) -> bool
    ensures { IsTrue result → c.now ≡ d.now }
{
    c.first == d.first && c.second == d.second && c.third == d.third
}

// Whether it is the same face with the same corners.
fn is_same(a: &(FaceId, Corners), b: &(FaceId, Corners)) -> bool
    ensures { IsTrue result → a.now ≡ b.now }
{
    a.0 == b.0 && have_same_corners(&a.1, &b.1)
}

/// Whether these are the same faces, in the same order.
pub(crate) fn are_same(a: &[(FaceId, Corners)], b: &[(FaceId, Corners)]) -> bool
    ensures { IsTrue result → a.now ≡ b.now }
{
    if a.len() != b.len() {
        return false;
    }
    for (i, f) in a.iter().enumerate() {
        if !is_same(f, &b[i]) {
            return false;
        }
    }
    true
}
