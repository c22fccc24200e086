//! The list that is kept from step to step.
ghost use Rattle.std.specs.Prelude.{◌≤◌, IsTrue, IfOk, IfSome};
ghost use Rattle.grid_base.specs.declared.TheConstants.{DEPTH_MAX};
ghost use Rattle.mesh_base.specs.Placements.{IsClearMesh};
ghost use Rattle.mesh_base.specs.Shifts.{NameLive, end_in_box};
ghost use Rattle.pair_scan.specs.Answers.{AreAllFailing};
ghost use Rattle.neighbour_list.specs.Listed.{IsListOf};
ghost use Rattle.step_lists.specs.Compared.{IsOfMesh};

use crate::ahead::skin_ahead;
use crate::backoff::Backoff;
use crate::end_positions::EndPositions;
use crate::kept::KeptList;
use crate::list_of_mesh::{ListOfMesh, compare};
use grid_base::{DEPTH_MAX, NoMemory};
use mesh_base::{Shifts, Surface};
use neighbour_list::failing_by_list;
use pair_scan::{Pairs, ShiftedVertices, failing};
use std::alloc::Global;
use std::marker::Model;
use step_near::all_pass_near;

/// What is kept from one step to the next so that the pairs that do not pass are found sooner: a neighbour list, where one is
/// worth while. Nothing is believed of the mesh: before a list is used, the faces and vertices of the mesh are compared with
/// those of which it was made. A contract sees nothing of it, since answers do not depend on it.
#[derive(Drop)]
pub struct StepLists {
    kept: Option<KeptList>,
    backoff: Backoff,
}

impl Model for StepLists {
    ghost Value = { Unit {0} };

    ghost view = { λ _. tt };
}

// The pairs of a clear mesh that do not pass, by the list, where there is one of this mesh that serves.
fn failing_by_kept<S: Surface>(
    alloc: Global,
    kept: &Option<KeptList>,
    mesh: &S,
    by: &Shifts,
    depth: u8,
) -> Result<Option<Pairs>, NoMemory>
    requires named { NameLive (S.mesh mesh.now) by.now }
    requires in_box { IsTrue (end_in_box (S.mesh mesh.now) by.now) }
    requires depth { depth ≤ DEPTH_MAX }
    requires clear { IsClearMesh (S.mesh mesh.now) }
    ensures { IfOk result (λ o. IfSome o (AreAllFailing (S.mesh mesh.now) by.now depth)) }
{
    match kept {
        Some(kept) => kept.failing_by(alloc, mesh, by, depth),
        None => Ok(None),
    }
}

// A list for the next steps, where one is worth while: its reference points are where the vertices end in this one.
fn list_ahead<S: Surface>(
    alloc: Global,
    mesh: &S,
    by: &Shifts,
) -> Result<Option<KeptList>, NoMemory>
    requires named { NameLive (S.mesh mesh.now) by.now }
    requires in_box { IsTrue (end_in_box (S.mesh mesh.now) by.now) }
    ensures { IfOk result (λ o. IfSome o (λ kept. IsListOf (S.mesh mesh.now) kept.list)) }
{
    let Some(skin) = skin_ahead(alloc, mesh, by.as_slice())? else {
        return Ok(None);
    };
    let shifted = ShiftedVertices {
        mesh,
        by: by.as_slice(),
    };
    let ends = EndPositions { paths: &shifted };
    let kept = KeptList::of(alloc, mesh, &ends, skin)?;
    Ok(Some(kept))
}

impl StepLists {
    /// No list.
    pub fn none() -> StepLists {
        StepLists {
            kept: None,
            backoff: Backoff::none(),
        }
    }

    /// The list that is kept, if the mesh has the faces and the vertices of which it was made. What is tried in a step asks it
    /// again and again, and the mesh is compared with it once. Refuses only where there is no memory.
    pub fn of_mesh<S: Surface>(&self, alloc: Global, mesh: &S) -> Result<ListOfMesh<'_>, NoMemory>
        ensures { IfOk result (IsOfMesh (S.mesh mesh.now)) }
    {
        match &self.kept {
            Some(kept) => compare(alloc, kept, mesh),
            None => Ok(ListOfMesh { kept: None }),
        }
    }

    // The list, if there was one, serves no more.
    fn forget(&mut self) {
        if self.kept.is_some() {
            self.backoff.end();
        }
        self.kept = None;
    }

    // The pairs of a clear mesh that do not pass, by a list that is made for this step and the next, where none is waited for and one
    // is worth while; None where there is none, or it does not serve in this step yet. Where there is no memory for it, it is
    // done without.
    fn failing_by_new<S: Surface>(
        &mut self,
        alloc: Global,
        mesh: &S,
        by: &Shifts,
        depth: u8,
    ) -> Result<Option<Pairs>, NoMemory>
        requires named { NameLive (S.mesh mesh.now) by.now }
        requires in_box { IsTrue (end_in_box (S.mesh mesh.now) by.now) }
        requires depth { depth ≤ DEPTH_MAX }
        requires clear { IsClearMesh (S.mesh mesh.now) }
        ensures { IfOk result (λ o. IfSome o (AreAllFailing (S.mesh mesh.now) by.now depth)) }
    {
        if !self.backoff.is_over(mesh.next_face()) {
            return Ok(None);
        }
        let Ok(Some(kept)) = list_ahead(alloc, mesh, by) else {
            return Ok(None);
        };
        let pairs = failing_by_list(alloc, mesh, by, depth, &kept.list)?;
        self.kept = Some(kept);
        self.backoff.begin();
        Ok(pairs)
    }

    // The pairs of a clear mesh that do not pass, by the list where it serves, or by a new one, and else by a scan of all.
    fn failing<S: Surface>(
        &mut self,
        alloc: Global,
        mesh: &S,
        by: &Shifts,
        depth: u8,
    ) -> Result<Pairs, NoMemory>
        requires named { NameLive (S.mesh mesh.now) by.now }
        requires in_box { IsTrue (end_in_box (S.mesh mesh.now) by.now) }
        requires depth { depth ≤ DEPTH_MAX }
        requires clear { IsClearMesh (S.mesh mesh.now) }
        ensures { IfOk result (AreAllFailing (S.mesh mesh.now) by.now depth) }
    {
        if let Some(pairs) = failing_by_kept(alloc, &self.kept, mesh, by, depth)? {
            self.backoff.serve();
            return Ok(pairs);
        }
        self.forget();
        if let Some(pairs) = self.failing_by_new(alloc, mesh, by, depth)? {
            self.backoff.serve();
            return Ok(pairs);
        }
        failing(alloc, mesh, by, depth)
    }

    /// The pairs of a clear mesh that do not pass in a step that asks these shifts of its live vertices, in order of the edge
    /// and then of the face. Where few vertices are asked to move, it is first seen near them whether there is one; where none
    /// is, nothing else is looked at. Else the list is asked that an earlier step left, if the mesh has still the same faces and
    /// vertices, and all pairs only where it does not serve. Refuses only where there is no memory.
    pub fn asked_hits<S: Surface>(
        &mut self,
        alloc: Global,
        mesh: &S,
        asked: &Shifts,
        depth: u8,
    ) -> Result<Pairs, NoMemory>
        requires named { NameLive (S.mesh mesh.now) asked.now }
        requires in_box { IsTrue (end_in_box (S.mesh mesh.now) asked.now) }
        requires clear { IsClearMesh (S.mesh mesh.now) }
        requires depth { depth ≤ DEPTH_MAX }
        ensures { IfOk result (AreAllFailing (S.mesh mesh.now) asked.now depth) }
    {
        if all_pass_near(alloc, mesh, asked, depth)? {
            return Ok(Pairs::new(alloc));
        }
        self.failing(alloc, mesh, asked, depth)
    }
}
