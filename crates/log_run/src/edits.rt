//! The line of a done edit.
ghost use Rattle.std.specs.Prelude.{◌≡◌, ◌↔◌, true, Ok, IfOk, IsTrue};
ghost use Rattle.mesh_base.specs.Kept.{BeginsWith};
ghost use Rattle.mesh_base.specs.Placements.{IsClearMesh};
ghost use Rattle.mesh_base.specs.Sides.{IsClosed};
ghost use Rattle.edit_any.specs.Dispatch.{edited};
ghost use Rattle.log_text.specs.declared.LogLine.TheVariants.{Did};
ghost use Rattle.edit_any.specs.Answered.{IsAnswered};
ghost use Rattle.log_run.specs.Parts.{Holds, Takes};

use crate::changes::{are_same, asked_by};
use crate::replay_state::ReplayState;
use crate::settlement::settle_if_none;
use edit_any::edit;
use edit_base::{Change, Edit};
use grid_base::{DEPTH_MAX, NoMemory};
use mesh_base::Surface;
use std::alloc::Global;

/// Does the edit of which a change tells, and answers whether it came out as told. Where it did not, or memory was wanting, nothing is
/// said of the mesh but that it is closed and clear.
pub(crate) fn redo<S: Surface>(
    alloc: Global,
    mesh: &mut S,
    change: &Change,
) -> Result<bool, NoMemory>
    requires closed { IsClosed (S.mesh mesh.old) }
    requires clear { IsClearMesh (S.mesh mesh.old) }
    ensures told { IfOk result
        (λ told. IsTrue told ↔ IsAnswered (S.mesh mesh.old) change.now) }
    ensures mesh { result ≡ Ok true → S.mesh mesh.new ≡ edited (S.mesh mesh.old) change.now }
    ensures closed { IsClosed (S.mesh mesh.new) }
    ensures clear { IsClearMesh (S.mesh mesh.new) }
    ensures marks { BeginsWith (S.kept mesh.new) (S.kept mesh.old) }
{
    match edit(alloc, mesh, DEPTH_MAX, asked_by(change))? {
        Edit::Done(done) => Ok(are_same(&done, change)),
        Edit::No(_) => Ok(false),
    }
}

/// Takes the line of a done edit.
pub(crate) fn take_edit<S: Surface>(
    alloc: Global,
    mesh: &mut S,
    at: &ReplayState,
    change: &Change,
) -> Result<bool, NoMemory>
    requires holds { Holds S.beyond (S.mesh mesh.old) (S.kept mesh.old) at.now }
    requires closed { IsClosed (S.mesh mesh.old) }
    requires clear { IsClearMesh (S.mesh mesh.old) }
    ensures takes { Takes S.beyond (Did change.now)
        (S.mesh mesh.old) (S.kept mesh.old) at.now
        (S.mesh mesh.new) (S.kept mesh.new) at.now result }
    ensures closed { IsClosed (S.mesh mesh.new) }
    ensures clear { IsClearMesh (S.mesh mesh.new) }
{
    if at.begun {
        return Ok(false);
    }
    settle_if_none(mesh, &at.marks);
    mesh.index();
    redo(alloc, mesh, change)
}
