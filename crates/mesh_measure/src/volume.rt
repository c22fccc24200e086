ghost use Rattle.std.specs.Prelude.{◌≡◌, ◌≤◌, ◌<◌, ◌^◌, unsigned_abs};
ghost use Rattle.std.specs.FinMap as map;
ghost use Rattle.grid_base.specs.declared.TheConstants.{BOX};
ghost use Rattle.grid_base.specs.Triples.{IsWithin};
ghost use Rattle.mesh_base.specs.Changes.{corners_of};
ghost use Rattle.mesh_base.specs.Placements.{rest_positions};
ghost use Rattle.mesh_measure.specs.declared.TheConstants.{DETERMINANT_MAX};
ghost use Rattle.mesh_measure.specs.Volume.{determinant, face_volume, part_of, volume6};

use grid_base::Wide;
use mesh_base::{FaceId, Surface, VertexId};

/// Where a vertex stands, and the origin where it is not live.
fn position<S: Surface>(mesh: &S, v: VertexId) -> Wide
    ensures value { result ≡ rest_positions (S.mesh mesh.now) v }
    ensures within { IsWithin BOX result }
{
    match mesh.point(v) {
        Some(p) => Wide {
            x: p.x as i128,
            y: p.y as i128,
            z: p.z as i128,
        },
        None => Wide { x: 0, y: 0, z: 0 },
    }
}

/// The determinant of three positions.
fn determinant(a: Wide, b: Wide, c: Wide) -> i128
    requires first { IsWithin BOX a }
    requires second { IsWithin BOX b }
    requires third { IsWithin BOX c }
    ensures value { result ≡ determinant a b c }
    ensures within { unsigned_abs result ≤ DETERMINANT_MAX }
{
    a.cross(b).dot(c)
}

/// That of three corners.
fn corners_volume<S: Surface>(mesh: &S, c: [VertexId; 3]) -> i128
    ensures value { result ≡ face_volume (rest_positions (S.mesh mesh.now)) (corners_of c) }
    ensures within { unsigned_abs result ≤ DETERMINANT_MAX }
{
    let first = position(mesh, c[0]);
    let second = position(mesh, c[1]);
    let third = position(mesh, c[2]);
    determinant(first, second, third)
}

/// That of the corners of a face, and 0 where it is not live.
pub(crate) fn face_part<S: Surface>(mesh: &S, f: FaceId) -> i128
    ensures value { let m = S.mesh mesh.now in
        result ≡ part_of (rest_positions m) (map.get m.faces f) }
    ensures within { unsigned_abs result ≤ DETERMINANT_MAX }
{
    match mesh.corners(f) {
        Some(c) => corners_volume(mesh, c),
        None => 0,
    }
}

/// Six times the volume that the faces enclose: the sum over all faces of the determinant of their three corners. Takes
/// no memory.
pub fn volume6<S: Surface>(mesh: &S) -> i128
    ensures value { result ≡ volume6 (S.mesh mesh.now) }
    ensures within { unsigned_abs result < 2 ^ 110 }
{
    let mut sum = 0;
    let mut last = 0;
    while let Some(f) = mesh.face_after(last) {
        sum += face_part(mesh, f);
        last = f.0;
    }
    sum
}
