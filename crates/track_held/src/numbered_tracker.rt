//! A tracker is made of vertices and faces that keep the ids that they had.
ghost use Rattle.std.specs.Prelude.{◌≡◌, ◌≤◌, ◌<◌, true, false, None, map, length, IfOk, IfErr, IsOk, []};
ghost use Rattle.grid_base.specs.declared.TheConstants.{VERTICES_MAX};
ghost use Rattle.mesh_base.specs.declared.limits.Scale.TheVariants.{Large};
ghost use Rattle.mesh_base.specs.Valid.{IsValidSurface};
ghost use Rattle.mesh_rows.specs.Rows.{mesh_of_rows};
ghost use Rattle.track_engine.specs.State.{unsaved};
ghost use Rattle.track_held.specs.Given.{is_outside};
ghost use Rattle.track_held.specs.Numbered.{numbered_point, vertex_in, face_row_in, outside_fault, rows_or_meet_fault, IsRefusal, IsFaulty};
ghost use Rattle.track_held.specs.NumberedMade.{HoldsRows, AreValidRows, AreFaultless, IsRefusalOf};
ghost use Rattle.track_held.specs.Held.{held_state, keeps_lines, lines_in, goes_on};
ghost use Rattle.track_held.specs.declared.numbered_tracker.NumberedRefusal.TheVariants as refusals;

use crate::given::{GivenPoint, NamedFace, NamedPoint};
use crate::held::Held;
use crate::new_tracker::{is_outside, point_of};
use grid_base::{NoMemory, VERTICES_MAX};
use mesh_base::{Corners, FaceId, Ids, PairName, Scale, VertexId};
use mesh_journal::JournalMesh;
use mesh_rows::{
    FaceRow, FaceRows, MeshRows, RowsFault, RowsRefusal, VertexRow, VertexRows, mesh_of_rows,
};
use pair_scan::first_meeting;
use std::alloc::Global;

/// What is wrong with vertices and faces, with their ids, of which a tracker should be made.
#[derive(Clone, Copy, Debug, PartialEq, Eq)]
pub enum NumberedFault {
    /// A vertex that is not in the box: the first, by its place, from 1.
    Outside { number: u32 },
    /// The first fault of rows.
    Rows(RowsFault),
    /// An edge meets a face that shares no vertex with it: the first such pair.
    Meets(PairName),
}

/// Why no tracker was made.
#[derive(Clone, Copy, Debug, PartialEq, Eq)]
pub enum NumberedRefusal {
    /// There was no memory, and nothing is said of the surface.
    NoMemory,
    /// The surface has this fault.
    Fault(NumberedFault),
}

impl From<NoMemory> for NumberedRefusal {
    ghost from_gives = { λ _ refusal. refusal ≡ refusals.NoMemory };

    fn from(_: NoMemory) -> NumberedRefusal {
        NumberedRefusal::NoMemory
    }
}

// Where a vertex is to stand.
fn numbered_point(row: &NamedPoint) -> GivenPoint
    ensures { result ≡ numbered_point row.now }
{
    GivenPoint {
        x: row.x,
        y: row.y,
        z: row.z,
    }
}

// The vertex with its id, which is in the box.
fn vertex_of(row: &NamedPoint) -> VertexRow
    requires { is_outside (numbered_point row.now) ≡ false }
    ensures { result ≡ vertex_in row.now }
{
    VertexRow {
        id: VertexId(row.id),
        at: point_of(numbered_point(row)),
    }
}

// The vertices, or the first that is not in the box.
fn vertices_of(alloc: Global, given: &[NamedPoint]) -> Result<VertexRows, NumberedRefusal>
    requires few { length given.now ≤ VERTICES_MAX }
    ensures vertices { IfOk result (λ vertices. vertices ≡ map vertex_in given.now) }
    ensures none { IsOk result → outside_fault given.now ≡ None }
    ensures first { IfErr result (IsRefusal (outside_fault given.now)) }
{
    let mut vertices = VertexRows::new(alloc);
    let mut number: u32 = 1;
    for row in given {
        if is_outside(&numbered_point(row)) {
            return Err(NumberedRefusal::Fault(NumberedFault::Outside { number }));
        }
        vertices.push(vertex_of(row))?;
        number += 1;
    }
    Ok(vertices)
}

// The faces.
fn faces_of(alloc: Global, given: &[NamedFace]) -> Result<FaceRows, NoMemory>
    ensures { IfOk result (λ faces. faces ≡ map face_row_in given.now) }
{
    let mut faces = FaceRows::new(alloc);
    for row in given {
        let corners = Corners {
            first: VertexId(row.a),
            second: VertexId(row.b),
            third: VertexId(row.c),
        };
        faces.push(FaceRow {
            id: FaceId(row.id),
            corners,
        })?;
    }
    Ok(faces)
}

// The solid vertices.
fn solids_of(alloc: Global, given: &[u32]) -> Result<Ids, NoMemory>
    ensures { IfOk result (λ solids. solids ≡ given.now) }
{
    let mut solids = Ids::new(alloc);
    for v in given {
        solids.push(VertexId(*v))?;
    }
    Ok(solids)
}

// A tracker of the mesh that rows make, or their first fault, or the first pair that meets.
fn track_rows(alloc: Global, rows: &MeshRows) -> Result<Held<JournalMesh>, NumberedRefusal>
    ensures state { IfOk result (λ held.
        held_state held ≡ unsaved (mesh_of_rows Large rows.now)) }
    ensures goes_on { IfOk result (λ held. goes_on held ≡ true) }
    ensures keeps { IfOk result (λ held. keeps_lines held ≡ true) }
    ensures lines { IfOk result (λ held. lines_in held ≡ []) }
    ensures valid { IsOk result → IsValidSurface (mesh_of_rows Large rows.now) }
    ensures none { IsOk result → rows_or_meet_fault rows.now ≡ None }
    ensures first { IfErr result (IsRefusal (rows_or_meet_fault rows.now)) }
{
    let mesh = match mesh_of_rows(alloc, Scale::Large, rows) {
        Ok(mesh) => mesh,
        Err(RowsRefusal::NoMemory) => return Err(NumberedRefusal::NoMemory),
        Err(RowsRefusal::Fault(fault)) => {
            return Err(NumberedRefusal::Fault(NumberedFault::Rows(fault)));
        }
    };
    match first_meeting(alloc, &mesh)? {
        None => Ok(Held::new(alloc, mesh)?),
        Some(pair) => Err(NumberedRefusal::Fault(NumberedFault::Meets(pair))),
    }
}

/// A tracker of the surface of these vertices and faces, which keep their ids, of which these vertices are solid, and where the next vertex and
/// the next face get these ids; or the first thing that is wrong with them. It has told nothing, nothing is asked of its vertices, no step is
/// taken, and its settings are the first. So a tracker goes on where another was left. Its mesh has the limits of a large one.
pub fn track_numbered(
    alloc: Global,
    points: &[NamedPoint],
    faces: &[NamedFace],
    solids: &[u32],
    next_vertex: u32,
    next_face: u32,
) -> Result<Held<JournalMesh>, NumberedRefusal>
    ensures state { IfOk result
        (HoldsRows points.now faces.now solids.now next_vertex next_face) }
    ensures goes_on { IfOk result (λ held. goes_on held ≡ true) }
    ensures keeps { IfOk result (λ held. keeps_lines held ≡ true) }
    ensures lines { IfOk result (λ held. lines_in held ≡ []) }
    // Made: they have no fault, and their mesh is sound, closed and clear.
    ensures valid { IsOk result →
        AreValidRows points.now faces.now solids.now next_vertex next_face }
    ensures none { IsOk result →
        AreFaultless points.now faces.now solids.now next_vertex next_face }

    // Refused for a fault: the first. Too many vertices are refused without memory.
    ensures first { IfErr result
        (IsRefusalOf points.now faces.now solids.now next_vertex next_face) }
    ensures crowded { VERTICES_MAX < length points.now → IsFaulty result }
{
    if points.len() > VERTICES_MAX as usize {
        let count = points.len() as u64;
        let fault = NumberedFault::Rows(RowsFault::TooManyVertices { count });
        return Err(NumberedRefusal::Fault(fault));
    }
    let vertices = match vertices_of(alloc, points) {
        Ok(vertices) => vertices,
        Err(refusal) => return Err(refusal),
    };
    let faces = faces_of(alloc, faces)?;
    let solids = solids_of(alloc, solids)?;
    let rows = MeshRows {
        vertices,
        faces,
        solids,
        next_vertex,
        next_face,
    };
    track_rows(alloc, &rows)
}
