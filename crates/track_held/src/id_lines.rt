//! The lines that tell which ids the vertices and the faces of a mesh have.
ghost use Rattle.std.specs.Prelude.{◌≡◌, IfOk, OnOk};
ghost use Rattle.log_write.specs.Written.{Says};
ghost use Rattle.track_held.specs.Heads.{has_dense_ids, head_version, vertices_line, faces_line, id_lines};

use grid_base::{Items, NoMemory};
use log_text::{IDS_VERSION, LogLine, NewIds, VERSION};
use log_write::Listener;
use mesh_base::{FaceId, Surface, VertexId, live_faces, live_vertices};
use outside_io::Stop;
use std::alloc::Global;

// Whether the ids of vertices and of faces run from 1 on, up to the next one, with none left out.
fn has_dense_ids<S: Surface>(mesh: &S) -> bool
    ensures { result ≡ has_dense_ids (S.mesh mesh.now) }
{
    u64::from(mesh.next_vertex()) == u64::from(mesh.vertices()) + 1
        && u64::from(mesh.next_face()) == u64::from(mesh.faces()) + 1
}

/// The version of a log of a mesh: where ids are not dense, that of logs which tell them.
pub(crate) fn head_version<S: Surface>(mesh: &S) -> u8
    ensures { result ≡ head_version (S.mesh mesh.now) }
{
    if has_dense_ids(mesh) {
        VERSION
    } else {
        IDS_VERSION
    }
}

// The numbers of vertices.
fn vertex_numbers(alloc: Global, ids: &[VertexId]) -> Result<Items<u32>, NoMemory>
    ensures { IfOk result (λ numbers. numbers ≡ ids.now) }
{
    let mut numbers = Items::new(alloc);
    for v in ids {
        numbers.push(v.0)?;
    }
    Ok(numbers)
}

// The numbers of faces.
fn face_numbers(alloc: Global, ids: &[FaceId]) -> Result<Items<u32>, NoMemory>
    ensures { IfOk result (λ numbers. numbers ≡ ids.now) }
{
    let mut numbers = Items::new(alloc);
    for f in ids {
        numbers.push(f.0)?;
    }
    Ok(numbers)
}

// The line that tells the ids of vertices.
fn vertices_line<S: Surface>(alloc: Global, mesh: &S) -> Result<LogLine, NoMemory>
    ensures { IfOk result (λ line. line ≡ vertices_line (S.mesh mesh.now)) }
{
    let live = live_vertices(alloc, mesh)?;
    Ok(LogLine::Vertices(NewIds {
        next: mesh.next_vertex(),
        ids: vertex_numbers(alloc, live.as_slice())?,
    }))
}

// The line that tells the ids of faces.
fn faces_line<S: Surface>(alloc: Global, mesh: &S) -> Result<LogLine, NoMemory>
    ensures { IfOk result (λ line. line ≡ faces_line (S.mesh mesh.now)) }
{
    let live = live_faces(alloc, mesh)?;
    Ok(LogLine::Faces(NewIds {
        next: mesh.next_face(),
        ids: face_numbers(alloc, live.as_slice())?,
    }))
}

/// Tells which ids there are, where they are not dense.
pub(crate) fn tell_ids<S: Surface, O: Listener>(
    alloc: Global,
    mesh: &S,
    outside: &mut O,
) -> Result<(), Stop>
    ensures { OnOk result (Says (id_lines (S.mesh mesh.now))
        (O.around outside.old) (O.around outside.new) result) }
{
    if has_dense_ids(mesh) {
        return Ok(());
    }
    let vertices = vertices_line(alloc, mesh)?;
    outside.tell(alloc, &vertices)?;
    let faces = faces_line(alloc, mesh)?;
    outside.tell(alloc, &faces)
}
