//! The making of a list that is kept, and its use.
ghost use Rattle.std.specs.Prelude.{◌≡◌, ◌≤◌, IsTrue, IfOk, IfSome};
ghost use Rattle.std.specs.FinMap as finite;
ghost use Rattle.grid_base.specs.declared.TheConstants.{DEPTH_MAX, HALF_MAX};
ghost use Rattle.mesh_base.specs.Placements.{IsClearMesh};
ghost use Rattle.mesh_base.specs.Shifts.{NameLive, end_in_box};
ghost use Rattle.pair_scan.specs.Answers.{AreAllFailing};
ghost use Rattle.neighbour_list.specs.Listed.{HasReferences, IsListOf};

use crate::faces::{are_same, faces_of};
use crate::kept::KeptList;
use crate::vertices::are_same_vertices;
use grid_base::{DEPTH_MAX, HALF_MAX, NoMemory};
use mesh_base::{Shifts, Surface, live_vertices};
use neighbour_list::{NeighbourList, failing_by_list};
use pair_paths::Paths;
use pair_scan::Pairs;
use std::alloc::Global;

impl KeptList {
    /// A list of a mesh with its vertices and faces; the reference points are where the vertices start in this motion. Refuses
    /// only where there is no memory.
    pub fn of<S: Surface, P: Paths>(
        alloc: Global,
        mesh: &S,
        at: &P,
        skin: u32,
    ) -> Result<KeptList, NoMemory>
        requires { skin ≤ HALF_MAX }
        ensures list { IfOk result (λ kept. IsListOf (S.mesh mesh.now) kept.list) }
        ensures vertices { IfOk result
            (λ kept. kept.vertices ≡ finite.keys (S.mesh mesh.now).points) }
        ensures faces { IfOk result (λ kept. kept.faces ≡ finite.entries (S.mesh mesh.now).faces) }
        ensures skin { IfOk result (λ kept. kept.list.skin ≡ skin) }
        ensures references { IfOk result (λ kept. HasReferences (P.motion at.now).start kept.list) }
    {
        let vertices = live_vertices(alloc, mesh)?;
        let faces = faces_of(alloc, mesh)?;
        let list = NeighbourList::of(alloc, mesh, at, skin)?;
        Ok(KeptList {
            list,
            vertices,
            faces,
        })
    }

    /// Whether the mesh has the faces and the vertices of which the list was made. Then the list is one of this mesh, wherever
    /// its vertices stand. Refuses only where there is no memory.
    pub fn is_of<S: Surface>(&self, alloc: Global, mesh: &S) -> Result<bool, NoMemory>
        ensures { IfOk result (λ is. IsTrue is → IsListOf (S.mesh mesh.now) self.now.list) }
    {
        let vertices = live_vertices(alloc, mesh)?;
        if !are_same_vertices(vertices.as_slice(), self.vertices.as_slice()) {
            return Ok(false);
        }
        let faces = faces_of(alloc, mesh)?;
        Ok(are_same(faces.as_slice(), self.faces.as_slice()))
    }

    /// All pairs of a clear mesh that do not pass, as `pair_scan::failing` tells them, by the list; None where the list is not
    /// one of this mesh or does not serve. Refuses only where there is no memory.
    pub fn failing_by<S: Surface>(
        &self,
        alloc: Global,
        mesh: &S,
        by: &Shifts,
        depth: u8,
    ) -> Result<Option<Pairs>, NoMemory>
        requires named { NameLive (S.mesh mesh.now) by.now }
        requires in_box { IsTrue (end_in_box (S.mesh mesh.now) by.now) }
        requires depth { depth ≤ DEPTH_MAX }
        requires clear { IsClearMesh (S.mesh mesh.now) }
        ensures { IfOk result (λ o. IfSome o (AreAllFailing (S.mesh mesh.now) by.now depth)) }
    {
        let is = self.is_of(alloc, mesh)?;
        if !is {
            return Ok(None);
        }
        failing_by_list(alloc, mesh, by, depth, &self.list)
    }
}
