//! A face is tested in the mesh that the rows before it make.
ghost use Rattle.std.specs.Prelude.{◌≡◌, slice_get};
ghost use Rattle.mesh_base.specs.Mesh.{equal_up_to_rotation};
ghost use Rattle.mesh_base.specs.Sides.{faces_running};
ghost use Rattle.mesh_shape.specs.Shape.{repeats};
ghost use Rattle.mesh_rows.specs.Search.{pick};
ghost use Rattle.mesh_rows.specs.Faults.{no_corner, has_corners_at, equal_face, corners_fault, face_fault};

use crate::faults::RowsFault;
use crate::rows::FaceRow;
use mesh_base::{Corners, FaceId, Surface};

// Whether the corners are equal up to rotation.
fn are_equal(c: Corners, d: Corners) -> bool
    ensures { result ≡ equal_up_to_rotation c d }
{
    c.first == d.first && c.second == d.second && c.third == d.third
        || c.second == d.first && c.third == d.second && c.first == d.third
        || c.third == d.first && c.first == d.second && c.second == d.third
}

// The first corner that is no live vertex, from 1.
fn no_corner<S: Surface>(mesh: &S, c: &Corners) -> Option<u8>
    ensures { result ≡ no_corner (S.mesh mesh.now) c.now }
{
    if mesh.point(c.first).is_none() {
        return Some(1);
    }
    if mesh.point(c.second).is_none() {
        return Some(2);
    }
    if mesh.point(c.third).is_none() {
        return Some(3);
    }
    None
}

// Whether a corner stands twice.
fn repeats(c: &Corners) -> bool
    ensures { result ≡ repeats c.now }
{
    c.first == c.second || c.second == c.third || c.third == c.first
}

// Whether a face has the corners, turned or not.
fn has_corners_at<S: Surface>(mesh: &S, c: &Corners, f: FaceId) -> bool
    ensures { result ≡ has_corners_at (S.mesh mesh.now) c.now f }
{
    match mesh.corners(f) {
        Some(d) => are_equal(Corners::of(d), *c),
        None => false,
    }
}

// The nth, from 0, of the faces that run from the first corner to the second, if it has the corners.
fn equal_nth<S: Surface>(mesh: &S, c: &Corners, nth: u32) -> Option<FaceId>
    ensures { let m = S.mesh mesh.now in
        let nth_face = slice_get (faces_running m c.now.first c.now.second) nth in
        result ≡ pick (has_corners_at m c.now) nth_face }
{
    let f = mesh.run_face(c.first, c.second, nth)?;
    if has_corners_at(mesh, c, f) {
        Some(f)
    } else {
        None
    }
}

// The first face that has the corners, turned or not. It runs from the first to the second.
fn equal_face<S: Surface>(mesh: &S, c: &Corners) -> Option<FaceId>
    ensures { result ≡ equal_face (S.mesh mesh.now) c.now }
{
    let count = mesh.runs(c.first, c.second);
    for nth in 0..count {
        if let Some(f) = equal_nth(mesh, c, nth) {
            return Some(f);
        }
    }
    None
}

// What is wrong with the corners of a face.
fn corners_fault<S: Surface>(mesh: &S, row: &FaceRow) -> Option<RowsFault>
    ensures { result ≡ corners_fault (S.mesh mesh.now) row.now }
{
    if let Some(corner) = no_corner(mesh, &row.corners) {
        return Some(RowsFault::NoVertex {
            face: row.id,
            corner,
        });
    }
    if repeats(&row.corners) {
        return Some(RowsFault::Repeated { face: row.id });
    }
    match equal_face(mesh, &row.corners) {
        Some(first) => Some(RowsFault::Doubled {
            first,
            second: row.id,
        }),
        None => None,
    }
}

// What is wrong with a face at a place.
pub(crate) fn face_fault<S: Surface>(
    mesh: &S,
    row: &FaceRow,
    next: u32,
    place: u32,
) -> Option<RowsFault>
    ensures { result ≡ face_fault next place (S.mesh mesh.now) row.now }
{
    if row.id.0 < mesh.next_face() || row.id.0 >= next {
        return Some(RowsFault::FaceOrder { place });
    }
    corners_fault(mesh, row)
}
