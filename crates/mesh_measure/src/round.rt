//! The faces round a vertex.
ghost use Rattle.std.specs.Prelude.{◌≡◌, true, IfOk};
ghost use Rattle.std.specs.HashMap.{IsEmpty};
ghost use Rattle.mesh_measure.specs.Round.{behind, before, AddsLink, AreLinks, TakesReached, IsPlain};

use edit_acts::corners_at;
use grid_base::NoMemory;
use mesh_base::{Corners, FaceId, Surface, VertexId};
use std::collections::HashMap;

/// The corner behind a vertex, in the corners of a face that has it.
pub(crate) fn behind(c: &Corners, v: VertexId) -> VertexId
    ensures { result ≡ behind c.now v }
{
    if c.first == v {
        c.second
    } else if c.second == v {
        c.third
    } else {
        c.first
    }
}

/// The corner before a vertex.
fn before(c: &Corners, v: VertexId) -> VertexId
    ensures { result ≡ before c.now v }
{
    if c.first == v {
        c.third
    } else if c.second == v {
        c.first
    } else {
        c.second
    }
}

/// Links a vertex to another, and answers whether it had no link.
fn put_link(links: &mut HashMap<u32, u32>, from: VertexId, to: VertexId) -> Result<bool, NoMemory>
    ensures { IfOk result (λ fresh. fresh ≡ true → AddsLink from to links.old links.new) }
{
    let old = links.insert(from.0, to.0)?;
    Ok(old.is_none())
}

/// Links the corner behind a vertex to the one before it, for each of some faces. Answers false where two faces have one corner
/// behind it.
fn put_links<S: Surface>(
    mesh: &S,
    v: VertexId,
    faces: &[FaceId],
    links: &mut HashMap<u32, u32>,
) -> Result<bool, NoMemory>
    requires { IsEmpty links.old }
    ensures { IfOk result (λ apart. apart ≡ true
        → AreLinks (S.mesh mesh.now) v faces.now links.new) }
{
    for f in faces {
        let c = corners_at(mesh, *f);
        let from = behind(&c, v);
        let to = before(&c, v);
        if !put_link(links, from, to)? {
            return Ok(false);
        }
    }
    Ok(true)
}

/// Takes links away, one after another: that of the first vertex, that of the vertex to which it leads, and so on, until there is
/// none.
fn take_links(links: &mut HashMap<u32, u32>, first: VertexId)
    ensures { TakesReached first links.old links.new }
{
    let mut at = first.0;
    while let Some(next) = links.remove(&at) {
        at = next;
    }
}

/// Whether a walk round a vertex, from a face to the one that has its corner before the vertex behind it, and so on, comes to all faces
/// at the vertex, and no two of them have one corner behind it. Then the faces are one fan, and no two run from the vertex to one
/// other. Where it answers false, both may still be so. Takes time in proportion to the faces at the vertex.
pub(crate) fn is_plain<S: Surface>(
    mesh: &S,
    v: VertexId,
    faces: &mut Vec<FaceId>,
    links: &mut HashMap<u32, u32>,
) -> Result<bool, NoMemory>
    requires { IsEmpty links.old }
    ensures plain { IfOk result (λ plain. plain ≡ true → IsPlain (S.mesh mesh.now) v) }
    ensures empty { IfOk result (λ plain. plain ≡ true → IsEmpty links.new) }
{
    mesh.faces_at(v, faces)?;
    let count = faces.as_slice().len();
    if count == 0 {
        return Ok(true);
    }
    if !put_links(mesh, v, faces.as_slice(), links)? {
        return Ok(false);
    }
    let f = faces.as_slice()[0];
    let c = corners_at(mesh, f);
    let first = behind(&c, v);
    take_links(links, first);
    Ok(links.is_empty())
}
