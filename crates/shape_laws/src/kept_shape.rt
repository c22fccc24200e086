//! Whether an edit keeps the shape of a mesh.
ghost use Rattle.std.specs.Prelude.{◌≡◌, IfOk};
ghost use Rattle.shape_laws.specs.Kept.{ShapeStaysIf, keeps_shape, collapse_keeps_shape};

use crate::link::{has_plain_link, has_two_opposites};
use edit_base::Change;
use grid_base::NoMemory;
use mesh_base::Surface;
use std::alloc::Global;

/// Whether a done edit leaves the mesh in as many pieces and with the same Euler number; asked of the mesh before the edit. True
/// for each flip, and for a split of an edge whose two opposite vertices are not one. False says nothing.
pub fn keeps_shape<S: Surface>(mesh: &S, change: &Change) -> bool
    ensures exact { result ≡ keeps_shape (S.mesh mesh.now) change.now }
    ensures kept { ShapeStaysIf (S.mesh mesh.now) change.now result }
{
    match change {
        Change::Split { a, b, .. } => has_two_opposites(mesh, *a, *b),
        Change::Flip { .. } => true,
        Change::Collapse { .. } => false,
        Change::Zip { .. } => false,
        Change::Pinch { .. } => false,
    }
}

/// The same of a collapse, of which `keeps_shape` says nothing; false for any other edit. True where the ends of the edge have no
/// neighbours in common but its two opposite vertices, and no two faces cancel: at each end no edge is crowded or has one opposite
/// vertex for both its faces, and at one end no face has both opposite vertices of the edge. Then one vertex, three edges and two
/// faces go. This is the link condition (Dey, Edelsbrunner, Guha and Nekhayev 1999).
pub fn collapse_keeps_shape<S: Surface>(
    alloc: Global,
    mesh: &S,
    change: &Change,
) -> Result<bool, NoMemory>
    ensures exact { IfOk result (λ kept. kept ≡ collapse_keeps_shape (S.mesh mesh.now) change.now) }
    ensures kept { IfOk result (ShapeStaysIf (S.mesh mesh.now) change.now) }
{
    match change {
        Change::Collapse { a, b, .. } => has_plain_link(alloc, mesh, *a, *b),
        Change::Split { .. } => Ok(false),
        Change::Flip { .. } => Ok(false),
        Change::Zip { .. } => Ok(false),
        Change::Pinch { .. } => Ok(false),
    }
}
