//! A tracker is made of points and faces.
ghost use Rattle.std.specs.Prelude.{◌≡◌, ◌≤◌, ◌<◌, true, false, None, map, length, unwrap_or, IfOk, IfErr, IsOk, []};
ghost use Rattle.grid_base.specs.declared.TheConstants.{VERTICES_MAX, FACES_MAX};
ghost use Rattle.mesh_base.specs.declared.limits.Scale.TheVariants.{Large};
ghost use Rattle.mesh_base.specs.Given.{mesh_under};
ghost use Rattle.mesh_base.specs.Valid.{IsValidSurface};
ghost use Rattle.track_engine.specs.State.{unsaved};
ghost use Rattle.track_held.specs.Given.{point_in, face_in, given_mesh, is_outside, box_fault, too_many_faces, lists_fault, make_fault, IsRefusal, IsFaulty};
ghost use Rattle.track_held.specs.Held.{held_state, keeps_lines, lines_in, goes_on};
ghost use Rattle.track_held.specs.declared.new_tracker.MakeRefusal.TheVariants as refusals;

use crate::given::{GivenFace, GivenPoint};
use crate::held::Held;
use grid_base::{BOX, FACES_MAX, NoMemory, Point, VERTICES_MAX};
use mesh_base::{MeshLists, PairName, Points, Scale, ShapeFault, ShapeRefusal, Triangles};
use mesh_journal::JournalMesh;
use mesh_shape::shape;
use pair_scan::first_meeting;
use std::alloc::Global;

/// What is wrong with points and faces of which a tracker should be made. Points and faces are numbered from 1.
#[derive(Clone, Copy, Debug, PartialEq, Eq)]
pub enum MakeFault {
    /// A point that is not in the box: the first.
    Outside { number: u32 },
    /// The first fault of shape.
    Shape(ShapeFault),
    /// An edge meets a face that shares no vertex with it: the first such pair.
    Meets(PairName),
}

/// Why no tracker was made.
#[derive(Clone, Copy, Debug, PartialEq, Eq)]
pub enum MakeRefusal {
    /// There was no memory, and nothing is said of the surface.
    NoMemory,
    /// The surface has this fault.
    Fault(MakeFault),
}

impl From<NoMemory> for MakeRefusal {
    ghost from_gives = { λ _ refusal. refusal ≡ refusals.NoMemory };

    fn from(_: NoMemory) -> MakeRefusal {
        MakeRefusal::NoMemory
    }
}

/// Whether a point is not in the box.
pub(crate) fn is_outside(p: &GivenPoint) -> bool
    ensures { result ≡ is_outside p.now }
{
    !(p.x.unsigned_abs() <= BOX && p.y.unsigned_abs() <= BOX && p.z.unsigned_abs() <= BOX)
}

/// The point, which is in the box.
pub(crate) fn point_of(p: GivenPoint) -> Point
    requires { is_outside p ≡ false }
    ensures { result ≡ point_in p }
{
    Point {
        x: p.x,
        y: p.y,
        z: p.z,
    }
}

// The points, or the first that is not in the box.
fn points_of(alloc: Global, given: &[GivenPoint]) -> Result<Points, MakeRefusal>
    requires few { length given.now ≤ VERTICES_MAX }
    ensures points { IfOk result (λ points. points ≡ map point_in given.now) }
    ensures none { IsOk result → box_fault given.now ≡ None }
    ensures first { IfErr result (IsRefusal (box_fault given.now)) }
{
    let mut points = Points::new(alloc);
    let mut number: u32 = 1;
    for p in given {
        if is_outside(p) {
            return Err(MakeRefusal::Fault(MakeFault::Outside { number }));
        }
        points.push(point_of(*p))?;
        number += 1;
    }
    Ok(points)
}

// The fault of points with more faces than may live: a point that is not in the box, the first, goes before their number.
fn crowded_fault(given: &[GivenPoint], count: u64) -> MakeFault
    requires few { length given.now ≤ VERTICES_MAX }
    ensures { result ≡ unwrap_or (box_fault given.now) (too_many_faces count) }
{
    let mut number: u32 = 1;
    for p in given {
        if is_outside(p) {
            return MakeFault::Outside { number };
        }
        number += 1;
    }
    MakeFault::Shape(ShapeFault::TooManyFaces { count })
}

// The faces.
fn faces_of(alloc: Global, given: &[GivenFace]) -> Result<Triangles, NoMemory>
    ensures { IfOk result (λ faces. faces ≡ map face_in given.now) }
{
    let mut faces = Triangles::new(alloc);
    for f in given {
        faces.push([f.a, f.b, f.c])?;
    }
    Ok(faces)
}

// A tracker of the mesh that lists make, or their first fault of shape, or the first pair that meets.
fn track_lists(alloc: Global, lists: &MeshLists) -> Result<Held<JournalMesh>, MakeRefusal>
    ensures state { IfOk result (λ held.
        held_state held ≡ unsaved (mesh_under Large lists.now.points lists.now.faces)) }
    ensures goes_on { IfOk result (λ held. goes_on held ≡ true) }
    ensures keeps { IfOk result (λ held. keeps_lines held ≡ true) }
    ensures lines { IfOk result (λ held. lines_in held ≡ []) }
    ensures valid { IsOk result → IsValidSurface (mesh_under Large lists.now.points lists.now.faces) }
    ensures none { IsOk result → lists_fault lists.now.points lists.now.faces ≡ None }
    ensures first { IfErr result (IsRefusal (lists_fault lists.now.points lists.now.faces)) }
{
    match shape(alloc, Scale::Large, lists) {
        Ok(()) => {}
        Err(ShapeRefusal::NoMemory) => return Err(MakeRefusal::NoMemory),
        Err(ShapeRefusal::Shape(fault)) => {
            return Err(MakeRefusal::Fault(MakeFault::Shape(fault)));
        }
    }
    let mesh = JournalMesh::of(alloc, Scale::Large, lists)?;
    match first_meeting(alloc, &mesh)? {
        None => Ok(Held::new(alloc, mesh)?),
        Some(pair) => Err(MakeRefusal::Fault(MakeFault::Meets(pair))),
    }
}

/// A tracker of the surface of these points and faces, whose corners number the points from 1, or the first thing that is wrong with
/// them. It has told nothing, nothing is asked of its vertices, and its settings are the first. Its mesh has the limits of a large one:
/// at most 4,194,304 vertices and 8,388,608 faces.
pub fn track(
    alloc: Global,
    points: &[GivenPoint],
    faces: &[GivenFace],
) -> Result<Held<JournalMesh>, MakeRefusal>
    ensures state { IfOk result (λ held.
        held_state held ≡ unsaved (given_mesh points.now faces.now)) }
    ensures goes_on { IfOk result (λ held. goes_on held ≡ true) }
    ensures keeps { IfOk result (λ held. keeps_lines held ≡ true) }
    ensures lines { IfOk result (λ held. lines_in held ≡ []) }
    // Made: they have no fault, and their mesh is sound, closed and clear.
    ensures valid { IsOk result → IsValidSurface (given_mesh points.now faces.now) }
    ensures none { IsOk result → make_fault points.now faces.now ≡ None }

    // Refused for a fault: the first. Too many points, and too many faces, are refused without memory.
    ensures first { IfErr result (IsRefusal (make_fault points.now faces.now)) }
    ensures crowded { VERTICES_MAX < length points.now → IsFaulty result }
    ensures crowded_faces { FACES_MAX < length faces.now → IsFaulty result }
{
    if points.len() > VERTICES_MAX as usize {
        let count = points.len() as u64;
        let fault = MakeFault::Shape(ShapeFault::TooManyVertices { count });
        return Err(MakeRefusal::Fault(fault));
    }
    if faces.len() > FACES_MAX as usize {
        let fault = crowded_fault(points, faces.len() as u64);
        return Err(MakeRefusal::Fault(fault));
    }
    let points = match points_of(alloc, points) {
        Ok(points) => points,
        Err(refusal) => return Err(refusal),
    };
    let faces = faces_of(alloc, faces)?;
    track_lists(alloc, &MeshLists { points, faces })
}
