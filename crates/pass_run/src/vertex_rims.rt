//! Whether the faces at a vertex are known to be one fan, told by their rims: each face's two corners beside the vertex.
ghost use Rattle.std.specs.Prelude.{◌≡◌, ℕ, ◌<◌, IsTrue, Some, false, length, slice_get, slice_index_or, IfOk, IfSome, OnOk};
ghost use Rattle.mesh_base.specs.Sides.{faces_at, has_corner};
ghost use Rattle.edit_base.specs.Edges.{corners_at};
ghost use Rattle.edit_pinch.specs.Pinch.{fans};
ghost use Rattle.pass_run.specs.VertexRims.{IsRim, AreRims, rims_meet, AreBeside, AreLinked, AreAllLinked};

use edit_acts::corners_at;
use grid_base::NoMemory;
use mesh_base::{Corners, FaceId, Surface, VertexId};
use std::alloc::Global;

/// At a vertex of more faces than this nothing is known of its fans: a round of marks takes the square of their number.
const MANY: usize = 24;

/// Two corners of a face.
type Rim = (VertexId, VertexId);

/// Lists to write in, so that none is made for each vertex.
#[derive(Drop)]
pub(crate) struct VertexLists {
    faces: Vec<FaceId>,
    rims: Vec<Rim>,
    marks: Vec<bool>,
}

impl VertexLists {
    /// Empty lists.
    pub(crate) fn new(alloc: Global) -> VertexLists {
        VertexLists {
            faces: Vec::new(alloc),
            rims: Vec::new(alloc),
            marks: Vec::new(alloc),
        }
    }
}

/// The two of three corners that are beside a vertex.
fn beside(c: Corners, v: VertexId) -> Rim
    ensures first { IsTrue (has_corner c result.0) }
    ensures second { IsTrue (has_corner c result.1) }
{
    if c.first == v {
        (c.second, c.third)
    } else if c.second == v {
        (c.third, c.first)
    } else {
        (c.first, c.second)
    }
}

/// The corners beside a vertex, where they are others.
fn rim_of(c: Corners, v: VertexId) -> Option<Rim>
    ensures { IfSome result (IsRim c v) }
{
    let (a, b) = beside(c, v);
    if a == v || b == v {
        return None;
    }
    Some((a, b))
}

/// Puts the rims of faces in a list; None where one has none.
fn put_rims<S: Surface>(
    mesh: &S,
    v: VertexId,
    faces: &[FaceId],
    rims: &mut Vec<Rim>,
) -> Result<bool, NoMemory>
    ensures { IfOk result (λ all. IsTrue all → AreRims (S.mesh mesh.now) v faces.now rims.new.items) }
{
    rims.clear();
    for f in faces {
        match rim_of(corners_at(mesh, *f), v) {
            None => return Ok(false),
            Some(rim) => rims.push(rim)?,
        }
    }
    Ok(true)
}

/// Whether two rims have a vertex in common.
fn rims_meet(r: &Rim, s: &Rim) -> bool
    ensures { result ≡ rims_meet r.now s.now }
{
    r.0 == s.0 || r.0 == s.1 || r.1 == s.0 || r.1 == s.1
}

/// Whether there are rims at two places, and they meet.
fn meet_at(rims: &[Rim], j: usize, k: usize) -> bool
    ensures { IsTrue result → AreBeside rims.now j k }
{
    match rims.get(j) {
        Some(r) => match rims.get(k) {
            Some(s) => rims_meet(r, s),
            None => false,
        },
        None => false,
    }
}

/// Whether a rim that is marked meets that at a place.
fn is_beside(rims: &[Rim], marks: &[bool], k: usize) -> bool
    ensures { IsTrue result →
        (j : ℕ) × (IsTrue (slice_index_or marks.now j false) × AreBeside rims.now j k) }
{
    for j in 0..marks.len() {
        if marks[j] && meet_at(rims, j, k) {
            return true;
        }
    }
    false
}

/// Marks each rim that meets one that is marked; whether there was one.
fn join_more(rims: &[Rim], marks: &mut Vec<bool>) -> bool
    requires { AreLinked rims.now marks.old.items }
    ensures long { length marks.new.items ≡ length marks.old.items }
    ensures linked { AreLinked rims.now marks.new.items }
{
    let mut more = false;
    for k in 0..marks.len() {
        if !marks[k] && is_beside(rims, marks.as_slice(), k) {
            marks[k] = true;
            more = true;
        }
    }
    more
}

/// Marks the first of so many alone.
fn mark_first(count: usize, marks: &mut Vec<bool>) -> Result<(), NoMemory>
    ensures long { OnOk result (length marks.new.items ≡ count) }
    ensures first { OnOk result ((k : ℕ) → IsTrue (slice_index_or marks.new.items k false) → k ≡ 0) }
{
    marks.clear();
    for k in 0..count {
        marks.push(k == 0)?;
    }
    Ok(())
}

/// Whether each is marked.
fn are_marked(marks: &[bool]) -> bool
    ensures { IsTrue result →
        (k : ℕ) → k < length marks.now → IsTrue (slice_index_or marks.now k false) }
{
    for mark in marks {
        if !*mark {
            return false;
        }
    }
    true
}

/// Whether chains of rims are known to lead from the first to each.
fn are_linked(rims: &[Rim], marks: &mut Vec<bool>) -> Result<bool, NoMemory>
    ensures { IfOk result (λ all. IsTrue all → AreAllLinked rims.now) }
{
    mark_first(rims.len(), marks)?;
    for round in 0..rims.len() {
        if are_marked(marks.as_slice()) {
            return Ok(true);
        }
        if !join_more(rims, marks) {
            return Ok(false);
        }
    }
    Ok(false)
}

/// Whether the faces at a vertex are known to be one fan. Of a vertex of a manifold they are, where they are not many.
pub(crate) fn is_one_fan<S: Surface>(
    mesh: &S,
    v: VertexId,
    lists: &mut VertexLists,
) -> Result<bool, NoMemory>
    ensures { IfOk result (λ one. IsTrue one → length (fans (S.mesh mesh.now) v) ≡ 1) }
{
    mesh.faces_at(v, &mut lists.faces)?;
    if lists.faces.len() > MANY {
        return Ok(false);
    }
    if !put_rims(mesh, v, lists.faces.as_slice(), &mut lists.rims)? {
        return Ok(false);
    }
    are_linked(lists.rims.as_slice(), &mut lists.marks)
}
