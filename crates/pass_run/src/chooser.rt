//! What chooses the edits of a pass.
use edit_base::Asked;
use grid_base::NoMemory;
use mesh_base::Surface;
use std::alloc::Global;

/// What chooses which edit is asked at a candidate's turn, if any.
pub trait Chooses {
    ghost use Rattle.std.specs.Prelude.{Option, IfOk};
    ghost use Rattle.mesh_base.specs.Mesh.{Mesh};
    ghost use Rattle.mesh_base.specs.Sides.{IsClosed};
    ghost use Rattle.edit_base.specs.declared.Asked.{Asked};

    /// Whether it can choose.
    ghost can_choose: { Self → Type 0 };

    /// Whether it may choose this at a candidate's turn in a mesh.
    ghost may_choose: { Self → Mesh → Asked → Option Asked → Type 0 };

    /// Which edit is asked at a candidate's turn, if any.
    fn choice<S: Surface>(
        &self,
        alloc: Global,
        mesh: &S,
        what: Asked,
    ) -> Result<Option<Asked>, NoMemory>
        requires can { can_choose self.now }
        requires closed { IsClosed (S.mesh mesh.now) }
        ensures { IfOk result (λ call. may_choose self.now (S.mesh mesh.now) what call) };
}
