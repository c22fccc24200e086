ghost use Rattle.std.specs.Prelude.{◌≡◌, ◌+◌, is_none, length, IfOk, OnErr};
ghost use Rattle.mesh_base.specs.Kept.{BeginsWith, MarkHolds, StandsFor};
ghost use Rattle.mesh_base.specs.Mesh.{Mesh};
ghost use Rattle.mesh_base.specs.Sides.{IsClosed};
ghost use Rattle.edit_any.specs.Dispatch.{scaffold_of};
ghost use Rattle.motion_proof.specs.Acceptance.{AreWays};
ghost use Rattle.edit_scaffold.specs.Made.{IsDone, IsMade, HasNothingKept, IsLaidFor, OnLaid, KeepsUnlessLaid};

use crate::changes::put;
use crate::scaffold::{MarkedMotion, Scaffold};
use edit_base::Change;
use grid_base::NoMemory;
use mesh_base::Surface;
use mesh_plain::PlainMesh;
use std::alloc::Global;

// Whether an edit moves nothing: a zip does.
fn moves_nothing(change: &Change) -> bool
    ensures { (m : Mesh) → result ≡ is_none (scaffold_of m change.now) }
{
    match change {
        Change::Zip { .. } => true,
        _ => false,
    }
}

/// On what a done edit was tested: a mesh, and how its vertices move; None exactly for a zip, which moves nothing. The
/// mesh is closed, and the change is what an edit of it does, tested to some depth. The mesh that is made has nothing
/// kept, and the given one stays.
pub fn scaffold_of<S: Surface>(
    alloc: Global,
    mesh: &S,
    change: &Change,
) -> Result<Option<Scaffold>, NoMemory>
    requires closed { IsClosed (S.mesh mesh.now) }
    requires done { IsDone (S.mesh mesh.now) change.now }
    ensures made { IfOk result (λ made. IsMade (scaffold_of (S.mesh mesh.now) change.now) made) }
    ensures kept { IfOk result HasNothingKept }
{
    if moves_nothing(change) {
        return Ok(None);
    }
    let mut copy = PlainMesh::copy_of(alloc, mesh)?;
    let motion = put(alloc, &mut copy, change)?;
    copy.settle();
    Ok(Some(Scaffold {
        mesh: copy,
        ways: motion.ways,
        claim: motion.claim,
    }))
}

/// Makes of a mesh the one on which a done edit of it was tested, and answers how its vertices move there and what is
/// claimed of that, as `scaffold_of` does of a copy; None exactly for a zip, which moves nothing. The mesh is closed,
/// and the change is what an edit of it does, tested to some depth. A return to the mark gives the mesh from before
/// back, next ids included, and leaves what was kept before. After None, and where memory is wanting, the mesh is as it
/// was, next ids included, and so is what was kept. Earlier marks still hold.
///
/// What it costs is what the edit changes, and the mark: no copy of the mesh is made where marks make none.
pub fn lay<S: Surface>(
    alloc: Global,
    mesh: &mut S,
    change: &Change,
) -> Result<Option<MarkedMotion>, NoMemory>
    requires closed { IsClosed (S.mesh mesh.old) }
    requires done { IsDone (S.mesh mesh.old) change.now }
    ensures laid { IfOk result (IsLaidFor S.mesh mesh change.now) }
    ensures err { OnErr result (S.mesh mesh.new ≡ S.mesh mesh.old) }
    // The ways are such as a certificate needs.
    ensures fits { OnLaid result (λ laid. AreWays laid.ways) }
    // A return to the mark gives the mesh back.
    ensures holds { OnLaid result (λ laid. MarkHolds S.beyond (S.kept mesh.new) laid.mark) }
    ensures stands { OnLaid result (λ laid. StandsFor (S.kept mesh.new) laid.mark (S.mesh mesh.old)) }
    ensures under { OnLaid result (λ laid. laid.mark.under ≡ length (S.kept mesh.old)) }
    ensures place { OnLaid result (λ laid. laid.mark.under ≡ laid.mark.place + S.beyond) }
    ensures marks { BeginsWith (S.kept mesh.new) (S.kept mesh.old) }
    ensures kept { KeepsUnlessLaid result (S.kept mesh.new) (S.kept mesh.old) }
{
    if moves_nothing(change) {
        return Ok(None);
    }
    let mark = mesh.mark()?;
    match put(alloc, mesh, change) {
        Ok(motion) => Ok(Some(MarkedMotion {
            mark,
            ways: motion.ways,
            claim: motion.claim,
        })),
        Err(fault) => {
            mesh.back_to(mark);
            Err(fault)
        }
    }
}
