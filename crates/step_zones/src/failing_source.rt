//! What tells which pairs fail in a round.
ghost use Rattle.std.specs.Prelude.{⊤};

use grid_base::NoMemory;
use mesh_base::{Shifts, Surface};
use pair_scan::{Pairs, failing};
use std::alloc::Global;

/// What tells which pairs of a clear mesh do not pass.
pub trait TellsFailing {
    ghost use Rattle.std.specs.Prelude.{◌≡◌, ◌≤◌, IsTrue, IfOk};
    ghost use Rattle.grid_base.specs.declared.TheConstants.{DEPTH_MAX};
    ghost use Rattle.grid_decided.specs.Decided.{meets_exactly};
    ghost use Rattle.mesh_base.specs.Failing.{failing};
    ghost use Rattle.mesh_base.specs.Mesh.{Mesh};
    ghost use Rattle.mesh_base.specs.Placements.{IsClearMesh};
    ghost use Rattle.mesh_base.specs.Shifts.{NameLive, end_in_box};

    /// Whether it can tell those of this mesh.
    ghost can_tell: { Self → Mesh → Type 0 };

    /// All pairs that do not pass where each vertex goes from its point by its shift, in order of the edge and then of the
    /// face. Refuses only where there is no memory.
    fn failing<S: Surface>(
        &self,
        alloc: Global,
        mesh: &S,
        by: &Shifts,
        depth: u8,
    ) -> Result<Pairs, NoMemory>
        requires can { can_tell self.now (S.mesh mesh.now) }
        requires named { NameLive (S.mesh mesh.now) by.now }
        requires in_box { IsTrue (end_in_box (S.mesh mesh.now) by.now) }
        requires depth { depth ≤ DEPTH_MAX }
        requires clear { IsClearMesh (S.mesh mesh.now) }
        ensures failing { IfOk result
            (λ pairs. pairs ≡ failing meets_exactly (S.mesh mesh.now) by.now depth) };
}

/// A scan of all pairs. It tells those of any mesh.
#[derive(Clone, Copy)]
pub struct ByScan;

impl TellsFailing for ByScan {
    ghost can_tell = { λ scan m. ⊤ };

    fn failing<S: Surface>(
        &self,
        alloc: Global,
        mesh: &S,
        by: &Shifts,
        depth: u8,
    ) -> Result<Pairs, NoMemory> {
        failing(alloc, mesh, by, depth)
    }
}
