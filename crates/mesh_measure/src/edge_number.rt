//! How many edges a mesh has, counted vertex by vertex.
ghost use Rattle.std.specs.Prelude.{◌≡◌, ℕ, [], ◌∷◌, length, IfOk, OnOk};
ghost use Rattle.std.specs.List.{flat_map};
ghost use Rattle.std.specs.List.Sorted.{IsStrictlySortedBy};
ghost use Rattle.std.specs.Ordering.{nat_cmp};
ghost use Rattle.mesh_base.specs.Changes.{corner_list};
ghost use Rattle.mesh_base.specs.Pairs.{edges};
ghost use Rattle.edit_base.specs.Classes.{is_one_of};
ghost use Rattle.edit_base.specs.Edges.{corners_at};
ghost use Rattle.mesh_measure.specs.Above.{edges_from, AddsAbove};

use edit_acts::corners_at;
use grid_base::NoMemory;
use mesh_base::{Corners, FaceId, Surface, VertexId};
use std::alloc::Global;

// Puts a vertex at the end of the list, if it is above `v`.
fn put_above(near: &mut Vec<u32>, v: VertexId, w: VertexId) -> Result<(), NoMemory>
    ensures { OnOk result (AddsAbove v (w ∷ []) near.old.items near.new.items) }
{
    if v.0 >= w.0 {
        return Ok(());
    }
    near.push(w.0)?;
    Ok(())
}

// Puts the corners of a face at the end of the list that are above `v`.
fn put_corners(near: &mut Vec<u32>, v: VertexId, c: Corners) -> Result<(), NoMemory>
    ensures { OnOk result (AddsAbove v (corner_list c) near.old.items near.new.items) }
{
    put_above(near, v, c.first)?;
    put_above(near, v, c.second)?;
    put_above(near, v, c.third)
}

// Puts the corners of some faces at the end of the list that are above `v`.
fn put_around<S: Surface>(
    near: &mut Vec<u32>,
    mesh: &S,
    v: VertexId,
    faces: &[FaceId],
) -> Result<(), NoMemory>
    ensures { let m = S.mesh mesh.now in OnOk result (AddsAbove v
        (flat_map (λ f. corner_list (corners_at m f)) faces.now) near.old.items near.new.items) }
{
    for f in faces {
        put_corners(near, v, corners_at(mesh, *f))?;
    }
    Ok(())
}

// Puts the numbers in order, each of them once.
pub(crate) fn put_in_order(near: &mut Vec<u32>)
    ensures order { IsStrictlySortedBy nat_cmp near.new.items }
    ensures same { (q : ℕ) → is_one_of near.new.items q ≡ is_one_of near.old.items q }
{
    near.sort_unstable();
    near.dedup();
}

// How many edges lead from a vertex to those above it. Takes time in proportion to the faces at the vertex and the logarithm of
// their number.
pub(crate) fn edges_from<S: Surface>(
    mesh: &S,
    v: VertexId,
    faces: &mut Vec<FaceId>,
    near: &mut Vec<u32>,
) -> Result<usize, NoMemory>
    ensures { IfOk result (λ n. n ≡ length (edges_from (S.mesh mesh.now) v)) }
{
    mesh.faces_at(v, faces)?;
    near.clear();
    put_around(near, mesh, v, faces.as_slice())?;
    put_in_order(near);
    Ok(near.len())
}

/// How many edges there are.
pub(crate) fn edge_count<S: Surface>(alloc: Global, mesh: &S) -> Result<usize, NoMemory>
    ensures { IfOk result (λ n. n ≡ length (edges (S.mesh mesh.now))) }
{
    let mut faces = Vec::new(alloc);
    let mut near = Vec::new(alloc);
    let mut count = 0;
    let mut last = 0;
    while let Some(v) = mesh.vertex_after(last) {
        let more = edges_from(mesh, v, &mut faces, &mut near)?;
        count += more;
        last = v.0;
    }
    Ok(count)
}
