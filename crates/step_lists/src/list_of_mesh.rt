//! The pairs that do not pass, by a list that was compared with the mesh.
ghost use Rattle.std.specs.Prelude.{◌≤◌, IsTrue, IfOk};
ghost use Rattle.grid_base.specs.declared.TheConstants.{DEPTH_MAX};
ghost use Rattle.mesh_base.specs.Placements.{IsClearMesh};
ghost use Rattle.mesh_base.specs.Shifts.{NameLive, end_in_box};
ghost use Rattle.pair_scan.specs.Answers.{AreAllFailing, TellsWhetherAllPass};
ghost use Rattle.step_lists.specs.Compared.{IsOfMesh};

use crate::kept::KeptList;
use grid_base::{DEPTH_MAX, NoMemory};
use mesh_base::{Shifts, Surface};
use neighbour_list::{all_pass_listed, failing_listed};
use pair_scan::{Pairs, all_pass, failing};
use std::alloc::Global;

/// The list that is kept, if it is one of a mesh, as it was found when the two were compared. It serves as long as the mesh has
/// the same faces and vertices: for all that is tried in a step.
#[derive(Clone, Copy)]
pub struct ListOfMesh<'a> {
    /// The list; None where none is kept, or it is one of another mesh.
    pub kept: Option<&'a KeptList>,
}

impl<'a> ListOfMesh<'a> {
    /// What `pair_scan::failing` answers of a clear mesh, by the list where it serves: all pairs that do not pass where each
    /// vertex goes from its point by its shift, in order of the edge and then of the face. Refuses only where there is no
    /// memory.
    pub fn failing<S: Surface>(
        &self,
        alloc: Global,
        mesh: &S,
        by: &Shifts,
        depth: u8,
    ) -> Result<Pairs, NoMemory>
        requires named { NameLive (S.mesh mesh.now) by.now }
        requires in_box { IsTrue (end_in_box (S.mesh mesh.now) by.now) }
        requires depth { depth ≤ DEPTH_MAX }
        requires clear { IsClearMesh (S.mesh mesh.now) }
        requires of_mesh { IsOfMesh (S.mesh mesh.now) self.now }
        ensures failing { IfOk result (AreAllFailing (S.mesh mesh.now) by.now depth) }
    {
        match self.kept {
            Some(kept) => failing_listed(alloc, mesh, by, depth, &kept.list),
            None => failing(alloc, mesh, by, depth),
        }
    }

    /// What `pair_scan::all_pass` answers of a clear mesh, by the list where it serves: whether all pairs pass where each vertex
    /// goes from its point by its shift. It ends at the first that does not, or the first edge with one. Refuses only where
    /// there is no memory.
    pub fn all_pass<S: Surface>(
        &self,
        alloc: Global,
        mesh: &S,
        by: &Shifts,
        depth: u8,
    ) -> Result<bool, NoMemory>
        requires named { NameLive (S.mesh mesh.now) by.now }
        requires in_box { IsTrue (end_in_box (S.mesh mesh.now) by.now) }
        requires depth { depth ≤ DEPTH_MAX }
        requires clear { IsClearMesh (S.mesh mesh.now) }
        requires of_mesh { IsOfMesh (S.mesh mesh.now) self.now }
        ensures exact { IfOk result (TellsWhetherAllPass (S.mesh mesh.now) by.now depth) }
    {
        match self.kept {
            Some(kept) => all_pass_listed(alloc, mesh, by, depth, &kept.list),
            None => all_pass(alloc, mesh, by, depth),
        }
    }
}

/// The list, if it is one of this mesh.
pub(crate) fn compare<'a, S: Surface>(
    alloc: Global,
    kept: &'a KeptList,
    mesh: &S,
) -> Result<ListOfMesh<'a>, NoMemory>
    ensures { IfOk result (IsOfMesh (S.mesh mesh.now)) }
{
    let is = kept.is_of(alloc, mesh)?;
    if !is {
        return Ok(ListOfMesh { kept: None });
    }
    Ok(ListOfMesh { kept: Some(kept) })
}
