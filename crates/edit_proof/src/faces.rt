//! Faces with the paths of their corners, by their ids.
ghost use Rattle.std.specs.Prelude.{◌≡◌, ◌++◌, IfOk, OnOk};
ghost use Rattle.edit_base.specs.Scaffold.{motion_by};
ghost use Rattle.pair_paths.specs.Moving.{live_face};
ghost use Rattle.edit_check.specs.Nearby.{as_list, faces_among};

use grid_base::{Items, NoMemory};
use mesh_base::{Corners, FaceId, Surface};
use motion_proof::Way;
use pair_paths::{MovingFace, face_with_paths};
use pair_scan::MovedVertices;
use std::alloc::Global;

/// A face, with the paths of its corners, if it is live.
fn face_along<S: Surface>(going: &MovedVertices<S, &[Way]>, f: FaceId) -> Option<MovingFace>
    ensures { let m = S.mesh going.now.mesh.now in
        result ≡ live_face m (motion_by m going.now.moves.now) f }
{
    match going.mesh.corners(f) {
        Some(ids) => Some(face_with_paths(going, f, &Corners::of(ids))),
        None => None,
    }
}

/// Puts a face with the paths of its corners at the end of a list, if it is live.
fn put_face<S: Surface>(
    going: &MovedVertices<S, &[Way]>,
    f: FaceId,
    faces: &mut Items<MovingFace>,
) -> Result<(), NoMemory>
    ensures { let m = S.mesh going.now.mesh.now in
        let face = live_face m (motion_by m going.now.moves.now) f in
        OnOk result (faces.new ≡ faces.old ++ as_list face) }
{
    if let Some(face) = face_along(going, f) {
        faces.push(face)?;
    }
    Ok(())
}

/// The faces of these ids, with the paths of their corners.
pub(crate) fn faces_along<S: Surface>(
    alloc: Global,
    going: &MovedVertices<S, &[Way]>,
    ids: &[FaceId],
) -> Result<Items<MovingFace>, NoMemory>
    ensures { let m = S.mesh going.now.mesh.now in
        IfOk result (λ faces. faces ≡ faces_among m going.now.moves.now ids.now) }
{
    let mut faces = Items::new(alloc);
    for f in ids {
        put_face(going, *f, &mut faces)?;
    }
    Ok(faces)
}
