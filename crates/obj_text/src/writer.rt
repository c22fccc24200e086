ghost use Rattle.std.specs.Prelude.{◌≡◌, ◌≤◌, IfOk};
ghost use Rattle.std.specs.List.Sorted.{IsNonDecreasing};
ghost use Rattle.std.specs.FinMap as finite;
ghost use Rattle.grid_base.specs.declared.TheConstants.{DECIMALS_MAX};
ghost use Rattle.line_text.specs.WrittenLines.{Appends};
ghost use Rattle.obj_text.specs.Written.{ranked_line, vertex_line, vertices_text, faces_text, mesh_text};

use crate::ranking::rank;
use grid_base::{NoMemory, Point};
use line_text::{Field, put_coordinate, put_line};
use mesh_base::{FaceId, Surface, VertexId, live_faces, live_vertices};
use std::alloc::Global;

// Appends the line of a vertex.
pub(crate) fn put_vertex(out: &mut Vec<u8>, p: Point, decimals: u8) -> Result<(), NoMemory>
    requires { decimals ≤ DECIMALS_MAX }
    ensures { Appends result out.old out.new (vertex_line decimals p) }
{
    out.extend_from_slice(b"v ")?;
    put_coordinate(out, p.x, decimals, b' ')?;
    put_coordinate(out, p.y, decimals, b' ')?;
    put_coordinate(out, p.z, decimals, b'\n')?;
    Ok(())
}

// Appends the line of a face with these corners.
fn put_face(out: &mut Vec<u8>, ids: &[VertexId], corners: [VertexId; 3]) -> Result<(), NoMemory>
    requires rising { IsNonDecreasing ids.now }
    ensures { Appends result out.old out.new (ranked_line ids.now corners) }
{
    let [a, b, c] = corners;
    put_line(
        &[
            Field::Text(b"f"),
            Field::Number(rank(ids, a)),
            Field::Number(rank(ids, b)),
            Field::Number(rank(ids, c)),
        ],
        out,
    )
}

// Appends the lines of the live vertices.
fn put_vertices<S: Surface>(
    out: &mut Vec<u8>,
    mesh: &S,
    ids: &[VertexId],
    decimals: u8,
) -> Result<(), NoMemory>
    requires places { decimals ≤ DECIMALS_MAX }
    requires live { ids.now ≡ finite.keys (S.mesh mesh.now).points }
    ensures { Appends result out.old out.new (vertices_text decimals (S.mesh mesh.now)) }
{
    for v in ids {
        let p = mesh.point(*v).unwrap();
        put_vertex(out, p, decimals)?;
    }
    Ok(())
}

// Appends the lines of the live faces.
fn put_faces<S: Surface>(
    out: &mut Vec<u8>,
    mesh: &S,
    ids: &[VertexId],
    faces: &[FaceId],
) -> Result<(), NoMemory>
    requires live { ids.now ≡ finite.keys (S.mesh mesh.now).points }
    requires live_faces { faces.now ≡ finite.keys (S.mesh mesh.now).faces }
    ensures { Appends result out.old out.new (faces_text (S.mesh mesh.now)) }
{
    for f in faces {
        let corners = mesh.corners(*f).unwrap();
        put_face(out, ids, corners)?;
    }
    Ok(())
}

/// The Wavefront OBJ text of a mesh on a grid of so many decimals: a line `v X Y Z` for each live vertex by rising id, its
/// coordinates divided by 10 ^ decimals, and then a line `f I J K` for each live face by rising id, its corners in order
/// by their ranks from 1 among the live vertices. The empty mesh has the empty text.
pub fn obj_of<S: Surface>(alloc: Global, mesh: &S, decimals: u8) -> Result<Vec<u8>, NoMemory>
    requires { decimals ≤ DECIMALS_MAX }
    ensures { IfOk result (λ text. text.items ≡ mesh_text decimals (S.mesh mesh.now)) }
{
    let vertices = live_vertices(alloc, mesh)?;
    let faces = live_faces(alloc, mesh)?;
    let mut out = Vec::new(alloc);
    put_vertices(&mut out, mesh, vertices.as_slice(), decimals)?;
    put_faces(&mut out, mesh, vertices.as_slice(), faces.as_slice())?;
    Ok(out)
}
