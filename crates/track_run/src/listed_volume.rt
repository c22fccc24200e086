//! The volume over a list of corners, with the points of vertices in a list by id.
ghost use Rattle.std.specs.Prelude.{◌≡◌, ◌≤◌, pos, int_lt, unsigned_abs, IfOk};
ghost use Rattle.grid_base.specs.declared.TheConstants.{BOX};
ghost use Rattle.grid_base.specs.Points.{position_of};
ghost use Rattle.grid_base.specs.Triples.{IsWithin};
ghost use Rattle.mesh_base.specs.Placements.{rest_positions, point_of};
ghost use Rattle.mesh_measure.specs.declared.TheConstants.{DETERMINANT_MAX};
ghost use Rattle.mesh_measure.specs.Volume.{determinant, face_volume, volume6};
ghost use Rattle.track_run.specs.Surface.{each_corners};
ghost use Rattle.track_run.specs.Places.{ArePlaced};

use grid_base::narrow::{normal, product};
use grid_base::{NoMemory, Point, Wide};
use mesh_base::{Corners, Surface, VertexId, point_of};
use std::alloc::Global;

// A list of points has at most so many for each vertex, so that it stays short where most ids are no longer live.
const FOR_EACH: u32 = 8;

// The points of vertices by id; a vertex of an id that is greater has none.
fn all_points<S: Surface>(alloc: Global, mesh: &S) -> Result<Vec<Point>, NoMemory>
    ensures { IfOk result (λ points. ArePlaced (S.mesh mesh.now) points.items) }
{
    let ids = mesh
        .next_vertex()
        .min(mesh.vertices().saturating_mul(FOR_EACH));
    let mut points = Vec::with_capacity(alloc, ids as usize)?;
    for v in 0..ids {
        points.push(point_of(mesh, VertexId(v)))?;
    }
    Ok(points)
}

// Where a vertex stands.
#[inline(always)]
fn point_in<S: Surface>(mesh: &S, points: &[Point], v: VertexId) -> Point
    requires { ArePlaced (S.mesh mesh.now) points.now }
    ensures { result ≡ point_of (S.mesh mesh.now) v }
{
    match points.get(v.0 as usize) {
        Some(p) => *p,
        None => point_of(mesh, v),
    }
}

// The position of a point.
#[inline(always)]
fn wide_of(p: Point) -> Wide
    ensures value { result ≡ position_of p }
    ensures within { IsWithin BOX result }
{
    Wide {
        x: i128::from(p.x),
        y: i128::from(p.y),
        z: i128::from(p.z),
    }
}

// That of a vertex.
#[inline(always)]
fn position<S: Surface>(mesh: &S, points: &[Point], v: VertexId) -> Wide
    requires { ArePlaced (S.mesh mesh.now) points.now }
    ensures value { result ≡ rest_positions (S.mesh mesh.now) v }
    ensures within { IsWithin BOX result }
{
    wide_of(point_in(mesh, points, v))
}

// The determinant of three positions.
#[inline(always)]
fn determinant(a: Wide, b: Wide, c: Wide) -> i128
    requires first { IsWithin BOX a }
    requires second { IsWithin BOX b }
    requires third { IsWithin BOX c }
    ensures value { result ≡ determinant a b c }
    ensures within { unsigned_abs result ≤ DETERMINANT_MAX }
{
    product(normal(a, b), c)
}

// That of three corners.
#[inline(always)]
fn corners_volume<S: Surface>(mesh: &S, points: &[Point], c: &Corners) -> i128
    requires { ArePlaced (S.mesh mesh.now) points.now }
    ensures value { result ≡ face_volume (rest_positions (S.mesh mesh.now)) c.now }
    ensures within { unsigned_abs result ≤ DETERMINANT_MAX }
{
    let first = position(mesh, points, c.first);
    let second = position(mesh, points, c.second);
    let third = position(mesh, points, c.third);
    determinant(first, second, third)
}

// Six times the volume of the mesh that has these faces.
fn listed_volume<S: Surface>(mesh: &S, points: &[Point], faces: &[Corners]) -> i128
    requires points { ArePlaced (S.mesh mesh.now) points.now }
    requires faces { faces.now ≡ each_corners (S.mesh mesh.now) }
    ensures { result ≡ volume6 (S.mesh mesh.now) }
{
    let mut sum = 0;
    for c in faces {
        sum += corners_volume(mesh, points, c);
    }
    sum
}

/// Whether the volume of the mesh that has these faces is below zero.
pub(crate) fn is_inside_out<S: Surface>(
    alloc: Global,
    mesh: &S,
    faces: &[Corners],
) -> Result<bool, NoMemory>
    requires { faces.now ≡ each_corners (S.mesh mesh.now) }
    ensures { IfOk result (λ is. is ≡ int_lt (volume6 (S.mesh mesh.now)) (pos 0)) }
{
    let points = all_points(alloc, mesh)?;
    Ok(listed_volume(mesh, points.as_slice(), faces) < 0)
}
