//! The lines of new ids.
ghost use Rattle.std.specs.Prelude.{◌≡◌, ◌↔◌, ◌≤◌, ◌+◌, IsTrue};
ghost use Rattle.grid_base.specs.declared.TheConstants.{ID_MAX};
ghost use Rattle.mesh_journal.specs.Journal.{mesh_in, kept_in};
ghost use Rattle.mesh_ids.specs.NewIds.{AreRisingBelow, MayTake};
ghost use Rattle.log_text.specs.declared.LogLine.TheVariants.{Vertices, Faces};
ghost use Rattle.log_run.specs.Parts.{Holds, Takes};

use crate::replay_state::ReplayState;
use grid_base::{ID_MAX, NoMemory};
use log_text::NewIds;
use mesh_base::Surface;
use mesh_journal::JournalMesh;
use mesh_rename::{with_face_ids, with_vertex_ids};
use std::alloc::Global;

// Whether ids rise from 1 on, and are below the next one.
fn are_rising(ids: &[u32], next: u32) -> bool
    requires { next ≤ (ID_MAX + 1) }
    ensures { IsTrue result ↔ AreRisingBelow next 1 ids.now }
{
    let mut low = 1;
    for id in ids {
        if *id < low || *id >= next {
            return false;
        }
        low = *id + 1;
    }
    true
}

// Whether as many may take these ids.
fn may_take(count: u32, new: &NewIds) -> bool
    ensures { IsTrue result ↔ MayTake count new.now.ids new.now.next }
{
    if new.ids.len() != count as usize {
        return false;
    }
    if new.next < 1 || new.next > ID_MAX + 1 {
        return false;
    }
    are_rising(new.ids.as_slice(), new.next)
}

/// Takes the line by which the live vertices take new ids.
pub(crate) fn take_vertices(
    alloc: Global,
    mesh: &mut JournalMesh,
    at: &ReplayState,
    new: &NewIds,
) -> Result<bool, NoMemory>
    requires { Holds 1 (mesh_in mesh.old) (kept_in mesh.old) at.now }
    ensures { Takes 1 (Vertices new.now)
        (mesh_in mesh.old) (kept_in mesh.old) at.now
        (mesh_in mesh.new) (kept_in mesh.new) at.now result }
{
    if at.begun {
        return Ok(false);
    }
    if at.marks.len() > 0 {
        return Ok(false);
    }
    if !may_take(mesh.vertices(), new) {
        return Ok(false);
    }
    let taken = with_vertex_ids(alloc, mesh, new.ids.as_slice(), new.next)?;
    *mesh = taken;
    Ok(true)
}

/// Takes the line by which the live faces take new ids.
pub(crate) fn take_faces(
    alloc: Global,
    mesh: &mut JournalMesh,
    at: &ReplayState,
    new: &NewIds,
) -> Result<bool, NoMemory>
    requires { Holds 1 (mesh_in mesh.old) (kept_in mesh.old) at.now }
    ensures { Takes 1 (Faces new.now)
        (mesh_in mesh.old) (kept_in mesh.old) at.now
        (mesh_in mesh.new) (kept_in mesh.new) at.now result }
{
    if at.begun {
        return Ok(false);
    }
    if at.marks.len() > 0 {
        return Ok(false);
    }
    if !may_take(mesh.faces(), new) {
        return Ok(false);
    }
    let taken = with_face_ids(alloc, mesh, new.ids.as_slice(), new.next)?;
    *mesh = taken;
    Ok(true)
}
