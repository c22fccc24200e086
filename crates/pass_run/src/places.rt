//! Where vertices stand, in a list by id, so that the length of an edge costs no look-up.
ghost use Rattle.std.specs.Prelude.{◌≡◌, ◌≢◌, ◌≤◌, ◌*◌, ◌^◌, ◌-ℤ◌, ℕ, pos, unsigned_abs, true, false, length, IfOk};
ghost use Rattle.grid_base.specs.declared.TheConstants.{BOX};
ghost use Rattle.grid_base.specs.Points.{position_of};
ghost use Rattle.grid_base.specs.Triples.{minus};
ghost use Rattle.mesh_base.specs.Pairs.{is_edge};
ghost use Rattle.mesh_base.specs.Sides.{IsClosed};
ghost use Rattle.edit_zip.specs.Zip.{square};
ghost use Rattle.pass_run.specs.Candidates.{ask_of, is_due, length_squared};
ghost use Rattle.pass_run.specs.Places.{Stands, IsPlaced, HasPlaces};

use crate::turns::is_flip_due;
use edit_base::PassKind;
use grid_base::{BOX, NoMemory, Point};
use mesh_base::{Surface, VertexId, point_of};
use std::alloc::Global;

/// A list of places has at most so many for each vertex, so that it stays short where most ids are no longer live.
const FOR_EACH: u32 = 8;

/// How many ids, from 0, have a place in a list.
fn ids_placed<S: Surface>(mesh: &S) -> u32
    ensures { result ≤ (S.mesh mesh.now).next_vertex }
{
    mesh.next_vertex()
        .min(mesh.vertices().saturating_mul(FOR_EACH))
}

/// The places of vertices by id; a vertex of an id that is greater has none.
fn all_places<S: Surface>(alloc: Global, mesh: &S) -> Result<Vec<Point>, NoMemory>
    ensures { IfOk result (λ places. HasPlaces (S.mesh mesh.now) places.items) }
{
    let ids = ids_placed(mesh);
    let mut places = Vec::with_capacity(alloc, ids as usize)?;
    for v in 0..ids {
        places.push(point_of(mesh, VertexId(v)))?;
    }
    Ok(places)
}

/// The places that a pass looks at: none, where it does not go by a length.
pub(crate) fn places_for<S: Surface>(
    alloc: Global,
    mesh: &S,
    kind: PassKind,
) -> Result<Vec<Point>, NoMemory>
    ensures { IfOk result (λ places. HasPlaces (S.mesh mesh.now) places.items) }
{
    match kind {
        PassKind::Split { .. } | PassKind::Collapse { .. } => all_places(alloc, mesh),
        _ => Ok(Vec::new(alloc)),
    }
}

/// Puts a vertex where it stands now, if the list has it.
pub(crate) fn place_again<S: Surface>(mesh: &S, places: &mut Vec<Point>, v: VertexId)
    ensures others { (u : ℕ) → (u ≢ v → IsPlaced (S.mesh mesh.now) places.old.items u) →
        IsPlaced (S.mesh mesh.now) places.new.items u }
    ensures length { length places.new.items ≡ length places.old.items }
{
    let place = v.0 as usize;
    if place < places.len() {
        places[place] = point_of(mesh, v);
    }
}

/// Where a vertex stands.
#[inline(always)]
fn place_of<S: Surface>(mesh: &S, places: &[Point], v: VertexId) -> Point
    requires { HasPlaces (S.mesh mesh.now) places.now }
    ensures { Stands (S.mesh mesh.now) v result }
{
    match places.get(v.0 as usize) {
        Some(p) => *p,
        None => point_of(mesh, v),
    }
}

/// The square of a length along an axis.
#[inline(always)]
fn square_of(length: u32) -> u64
    requires { length ≤ 2 ^ 31 }
    ensures value { result ≡ length * length }
    ensures size { result ≤ 2 ^ 62 }
{
    u64::from(length) * u64::from(length)
}

/// The square of the distance of two coordinates.
#[inline(always)]
fn square_along(a: i32, b: i32) -> u64
    requires first { unsigned_abs a ≤ BOX }
    requires second { unsigned_abs b ≤ BOX }
    ensures value { result ≡ unsigned_abs (a -ℤ b) * unsigned_abs (a -ℤ b) }
    ensures size { result ≤ 2 ^ 62 }
{
    square_of(a.abs_diff(b))
}

/// The square of the distance of two points: it has no more than 64 bits.
#[inline(always)]
fn square_between(p: Point, q: Point) -> u64
    ensures { pos result ≡ square (minus (position_of p) (position_of q)) }
{
    square_along(p.x, q.x) + square_along(p.y, q.y) + square_along(p.z, q.z)
}

/// The square of a limit.
#[inline(always)]
fn square_of_limit(limit: u32) -> u64
    ensures { result ≡ limit * limit }
{
    u64::from(limit) * u64::from(limit)
}

/// The square of the length of an edge.
#[inline(always)]
fn square_in<S: Surface>(mesh: &S, places: &[Point], e: (VertexId, VertexId)) -> u64
    requires { HasPlaces (S.mesh mesh.now) places.now }
    ensures { let m = S.mesh mesh.now in
        is_edge m e.0 e.1 ≡ true → pos result ≡ length_squared m e.0 e.1 }
{
    square_between(place_of(mesh, places, e.0), place_of(mesh, places, e.1))
}

/// Whether what a pass asks of an edge may be due, by the length of the edge; of a flip, whether it is. Where it may not, it is not.
#[inline(always)]
pub(crate) fn may_be_due<S: Surface>(
    mesh: &S,
    kind: PassKind,
    places: &[Point],
    e: (VertexId, VertexId),
) -> bool
    requires closed { IsClosed (S.mesh mesh.now) }
    requires places { HasPlaces (S.mesh mesh.now) places.now }
    ensures { result ≡ false → is_due (S.mesh mesh.now) kind (ask_of kind e) ≡ false }
{
    match kind {
        PassKind::Split { over } => square_of_limit(over) < square_in(mesh, places, e),
        PassKind::Collapse { under } => square_in(mesh, places, e) < square_of_limit(under),
        PassKind::Flip => is_flip_due(mesh, e.0, e.1),
        _ => true,
    }
}
