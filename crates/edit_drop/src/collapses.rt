//! The collapses that are tried, and the vertices whose edges they are.
ghost use Rattle.std.specs.Prelude.{◌≡◌, ◌++◌, map, IfOk, OnOk};
ghost use Rattle.edit_base.specs.declared.Asked.TheVariants as asked;
ghost use Rattle.edit_drop.specs.Drop.{collapses_among, any_live, any_solid};

use edit_base::Asked;
use grid_base::{Items, NoMemory};
use mesh_base::{Surface, VertexId};
use std::alloc::Global;

/// Edits that are asked for, in order.
pub(crate) type AskedEdits = Items<Asked>;

// Puts the collapse of the edge from a vertex to each of these at the end of a list.
fn put_collapses(all: &mut AskedEdits, v: VertexId, near: &[VertexId]) -> Result<(), NoMemory>
    ensures { OnOk result (all.new ≡ all.old ++ map (λ w. asked.Collapse v w) near.now) }
{
    for w in near {
        all.push(Asked::Collapse { a: v, b: *w })?;
    }
    Ok(())
}

/// The collapse of each edge that leads from one of these vertices to one above it, in order.
pub(crate) fn collapses_among<S: Surface>(
    alloc: Global,
    mesh: &S,
    vs: &[u32],
) -> Result<AskedEdits, NoMemory>
    ensures { IfOk result (λ all. all ≡ collapses_among (S.mesh mesh.now) vs.now) }
{
    let mut all = AskedEdits::new(alloc);
    let mut near = Vec::new(alloc);
    for v in vs {
        mesh.neighbours_above(VertexId(*v), &mut near)?;
        put_collapses(&mut all, VertexId(*v), near.as_slice())?;
    }
    Ok(all)
}

/// Whether one of these vertices lives.
pub(crate) fn any_live<S: Surface>(mesh: &S, vs: &[u32]) -> bool
    ensures { result ≡ any_live (S.mesh mesh.now) vs.now }
{
    for v in vs {
        if mesh.point(VertexId(*v)).is_some() {
            return true;
        }
    }
    false
}

/// Whether one of these vertices is solid.
pub(crate) fn any_solid<S: Surface>(mesh: &S, vs: &[u32]) -> bool
    ensures { result ≡ any_solid (S.mesh mesh.now) vs.now }
{
    for v in vs {
        if mesh.solid(VertexId(*v)) {
            return true;
        }
    }
    false
}
