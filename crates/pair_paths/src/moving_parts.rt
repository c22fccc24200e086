//! Edges and faces with the paths of their vertices.
ghost use Rattle.std.specs.Prelude.{◌≡◌, IfOk};
ghost use Rattle.pair_paths.specs.Moving.{moving_edge, moving_face, live_face, moving_faces};

use crate::path::{Path, Paths};
use grid_base::{Items, NoMemory};
use mesh_base::{Corners, FaceId, Surface, VertexId, live_faces};
use std::alloc::Global;

/// An edge, and the paths of its ends.
#[derive(Clone, Copy)]
pub struct MovingEdge {
    pub a: VertexId,
    pub b: VertexId,
    pub first: Path,
    pub second: Path,
}

/// A face, and the paths of its corners.
#[derive(Clone, Copy)]
pub struct MovingFace {
    pub face: FaceId,
    pub corners: Corners,
    pub c: Path,
    pub d: Path,
    pub e: Path,
}

/// The edge of two vertices.
#[inline(always)]
pub fn moving_edge<P: Paths>(paths: &P, a: VertexId, b: VertexId) -> MovingEdge
    ensures { result ≡ moving_edge (P.motion paths.now) a b }
{
    MovingEdge {
        a,
        b,
        first: paths.path_of(a),
        second: paths.path_of(b),
    }
}

/// A face of these corners, with their paths.
pub fn face_with_paths<P: Paths>(paths: &P, face: FaceId, corners: &Corners) -> MovingFace
    ensures { result ≡ moving_face (P.motion paths.now) (face, corners.now) }
{
    MovingFace {
        face,
        corners: *corners,
        c: paths.path_of(corners.first),
        d: paths.path_of(corners.second),
        e: paths.path_of(corners.third),
    }
}

/// A face, if it is live.
fn moving_face<S: Surface, P: Paths>(mesh: &S, paths: &P, f: FaceId) -> Option<MovingFace>
    ensures { result ≡ live_face (S.mesh mesh.now) (P.motion paths.now) f }
{
    match mesh.corners(f) {
        Some(ids) => Some(face_with_paths(paths, f, &Corners::of(ids))),
        None => None,
    }
}

/// The faces of a mesh, by rising id. Refuses only where there is no memory.
pub fn moving_faces<S: Surface, P: Paths>(
    alloc: Global,
    mesh: &S,
    paths: &P,
) -> Result<Items<MovingFace>, NoMemory>
    ensures { IfOk result (λ faces. faces ≡ moving_faces (S.mesh mesh.now) (P.motion paths.now)) }
{
    let ids = live_faces(alloc, mesh)?;
    let mut faces = Vec::with_capacity(alloc, ids.len())?;
    for f in ids.as_slice() {
        if let Some(face) = moving_face(mesh, paths, *f) {
            faces.push(face)?;
        }
    }
    Ok(Items::from_vec(faces))
}
