//! Faces with their boxes, by their ids.
ghost use Rattle.std.specs.Prelude.{◌≡◌, ◌++◌, IfOk, OnOk};
ghost use Rattle.edit_base.specs.Scaffold.{motion_by};
ghost use Rattle.pair_paths.specs.Moving.{live_face};
ghost use Rattle.edit_check.specs.Boxed.{faces_in};
ghost use Rattle.edit_check.specs.Nearby.{as_list, faces_among, near_faces};

use crate::boxed::BoxedFace;
use crate::path_boxes::boxed_face;
use edit_base::Move;
use grid_base::{Extent, Items, NoMemory};
use mesh_base::{Corners, FaceId, Surface};
use pair_paths::{MovingFace, face_with_paths};
use pair_scan::MovedVertices;
use std::alloc::Global;

/// A face, with the paths of its corners, if it is live.
fn face_along<S: Surface>(paths: &MovedVertices<S, &[Move]>, f: FaceId) -> Option<MovingFace>
    ensures { let m = S.mesh paths.now.mesh.now in
        result ≡ live_face m (motion_by m paths.now.moves.now) f }
{
    match paths.mesh.corners(f) {
        Some(ids) => Some(face_with_paths(paths, f, &Corners::of(ids))),
        None => None,
    }
}

/// Puts a face with the paths of its corners and its box at the end of a list, if it is live.
fn put_face<S: Surface>(
    paths: &MovedVertices<S, &[Move]>,
    f: FaceId,
    faces: &mut Vec<BoxedFace>,
) -> Result<(), NoMemory>
    ensures { let m = S.mesh paths.now.mesh.now in
        let face = live_face m (motion_by m paths.now.moves.now) f in
        OnOk result (faces_in faces.new.items ≡ faces_in faces.old.items ++ as_list face) }
{
    if let Some(face) = face_along(paths, f) {
        faces.push(boxed_face(face))?;
    }
    Ok(())
}

/// The faces of these ids, with the paths of their corners and their boxes.
pub(crate) fn faces_along<S: Surface>(
    alloc: Global,
    paths: &MovedVertices<S, &[Move]>,
    ids: &[FaceId],
) -> Result<Items<BoxedFace>, NoMemory>
    ensures { let m = S.mesh paths.now.mesh.now in
        IfOk result (λ faces. faces_in faces ≡ faces_among m paths.now.moves.now ids.now) }
{
    let mut faces = Vec::with_capacity(alloc, ids.len())?;
    for f in ids {
        put_face(paths, *f, &mut faces)?;
    }
    Ok(Items::from_vec(faces))
}

/// A list for the faces near an extent begins with room for so many, which is enough for most extents. Only speed depends on it.
const FOUND: usize = 64;

/// The faces near an extent, with the paths of their corners and their boxes.
pub(crate) fn faces_near<S: Surface>(
    alloc: Global,
    paths: &MovedVertices<S, &[Move]>,
    reach: Extent,
) -> Result<Items<BoxedFace>, NoMemory>
    ensures { let m = S.mesh paths.now.mesh.now in
        IfOk result (λ faces. faces_in faces ≡ near_faces m paths.now.moves.now reach) }
{
    let mut ids = Vec::with_capacity(alloc, FOUND)?;
    paths.mesh.faces_near(reach, &mut ids)?;
    faces_along(alloc, paths, ids.as_slice())
}
