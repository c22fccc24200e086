//! One edit of a mesh.
ghost use Rattle.std.specs.Prelude.{◌≡◌, ◌≤◌, IfOk};
ghost use Rattle.grid_base.specs.declared.TheConstants.{DEPTH_MAX};
ghost use Rattle.grid_decided.specs.Decided.{meets_exactly};
ghost use Rattle.mesh_base.specs.Sides.{IsClosed};
ghost use Rattle.mesh_base.specs.Placements.{IsClearMesh};
ghost use Rattle.mesh_base.specs.Kept.{BeginsWith};
ghost use Rattle.edit_base.specs.Clauses.{mesh_after_call, KeepsOnNo, MovesClearOnDone, OnOkIs};
ghost use Rattle.edit_any.specs.Dispatch.{answer_to, edited, scaffold_of};

use edit_base::{Asked, Edit};
use edit_collapse::collapse;
use edit_flip::flip;
use edit_pinch::pinch;
use edit_split::split;
use edit_zip::zip;
use grid_base::{DEPTH_MAX, NoMemory};
use mesh_base::Surface;
use std::alloc::Global;

/// Does the edit that is asked for, or answers why not. `depth` is the number of time halvings of the written test of
/// a motion; a zip moves nothing and needs none. After No, and where memory is wanting, the mesh is as it was, next ids
/// included, and so is what was kept. Earlier marks still hold.
///
/// The five edits are those of El Topo (Brochu and Bridson 2009).
pub fn edit<S: Surface>(
    alloc: Global,
    mesh: &mut S,
    depth: u8,
    what: Asked,
) -> Result<Edit, NoMemory>
    requires closed { IsClosed (S.mesh mesh.old) }
    requires clear { IsClearMesh (S.mesh mesh.old) }
    requires depth { depth ≤ DEPTH_MAX }
    ensures answer { OnOkIs result (answer_to meets_exactly (S.mesh mesh.old) depth what) }
    ensures mesh { S.mesh mesh.new ≡ mesh_after_call edited (S.mesh mesh.old) result }
    // The mesh stays closed and clear.
    ensures closed { IsClosed (S.mesh mesh.new) }
    ensures clear { IsClearMesh (S.mesh mesh.new) }
    // Where it is done, nothing meets on the way.
    ensures motion { IfOk result (λ edit. MovesClearOnDone scaffold_of (S.mesh mesh.old) edit) }
    ensures marks { BeginsWith (S.kept mesh.new) (S.kept mesh.old) }
    ensures kept { KeepsOnNo result (S.kept mesh.new) (S.kept mesh.old) }
{
    match what {
        Asked::Split { a, b } => split(alloc, mesh, a, b, depth),
        Asked::Flip { a, b } => flip(alloc, mesh, a, b, depth),
        Asked::Collapse { a, b } => collapse(alloc, mesh, a, b, depth),
        Asked::Zip { a, b, e, f } => zip(alloc, mesh, a, b, e, f),
        Asked::Pinch { v } => pinch(alloc, mesh, v, depth),
    }
}
