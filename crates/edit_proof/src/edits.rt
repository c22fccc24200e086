//! Certificates of the motions of edits, made and judged over a mesh that is edited.
ghost use Rattle.std.specs.Prelude.{◌≡◌, IfOk};
ghost use Rattle.mesh_base.specs.Kept.{BeginsWith};
ghost use Rattle.mesh_base.specs.Valid.{IsValidSurface};
ghost use Rattle.edit_base.specs.Scaffold.{motion_by};
ghost use Rattle.edit_check.specs.Untouched.{IsClearWhereUntouched};
ghost use Rattle.edit_any.specs.Dispatch.{scaffold_of};
ghost use Rattle.motion_proof.specs.Acceptance.{AreWays};
ghost use Rattle.edit_scaffold.specs.Made.{IsDone};
ghost use Rattle.edit_proof.specs.Certified.{IsMadeFor, IsFound, IsFoundForChange};

use crate::local::{accepts_near, certify_near};
use edit_base::Change;
use edit_scaffold::lay;
use grid_base::NoMemory;
use mesh_base::Surface;
use motion_proof::{Certificate, Claim, Made, Verdict, Way};
use std::alloc::Global;

/// What the rule makes of the motion of a done edit: a certificate that no pair of it meets, at each fraction, above
/// zero or below one as its kind claims, or the first pair that does not pass its written test; None exactly for a zip,
/// which moves nothing. The mesh is sound, closed and clear, and the change is what an edit of it does, tested to some
/// depth. Whatever is answered, the mesh is as it was, next ids included, and so is what was kept: earlier marks still
/// hold. Refuses only where there is no memory.
pub fn certify_edit<S: Surface>(
    alloc: Global,
    mesh: &mut S,
    change: &Change,
) -> Result<Option<Made>, NoMemory>
    requires valid { IsValidSurface (S.mesh mesh.old) }
    requires done { IsDone (S.mesh mesh.old) change.now }
    ensures made { IfOk result (IsMadeFor (scaffold_of (S.mesh mesh.old) change.now)) }
    ensures same { S.mesh mesh.new ≡ S.mesh mesh.old }
    ensures marks { BeginsWith (S.kept mesh.new) (S.kept mesh.old) }
    ensures kept { S.kept mesh.new ≡ S.kept mesh.old }
{
    let fresh_from = mesh.next_face();
    let Some(laid) = lay(alloc, mesh, change)? else {
        return Ok(None);
    };
    let made = certify_near(alloc, mesh, laid.ways.as_slice(), laid.claim, fresh_from);
    mesh.back_to(laid.mark);
    match made {
        Ok(made) => Ok(Some(made)),
        Err(fault) => Err(fault),
    }
}

// What is found of a certificate of a motion for which a claim is due, where no untouched pair meets, as `accepts_near`
// has it.
fn judge_near<S: Surface>(
    alloc: Global,
    mesh: &S,
    ways: &[Way],
    claim: Claim,
    proof: &Certificate,
    fresh_from: u32,
) -> Result<Verdict, NoMemory>
    requires fits { AreWays ways.now }
    requires clear { IsClearWhereUntouched (S.mesh mesh.now) ways.now fresh_from }
    ensures { let motion = motion_by (S.mesh mesh.now) ways.now in
        IfOk result (IsFound (S.mesh mesh.now) motion claim proof.now.claim proof.now.entries) }
{
    if proof.claim != claim {
        return Ok(Verdict::NoMotion);
    }
    accepts_near(alloc, mesh, ways, proof, fresh_from)
}

/// What is found of a certificate for the motion of a done edit: NoMotion where it is not of the claim of the edit's
/// kind, and else the verdict on it; None exactly for a zip, which moves nothing. Mesh, change and what is kept are as
/// `certify_edit` has them. Refuses only where there is no memory.
pub fn judge_edit<S: Surface>(
    alloc: Global,
    mesh: &mut S,
    change: &Change,
    proof: &Certificate,
) -> Result<Option<Verdict>, NoMemory>
    requires valid { IsValidSurface (S.mesh mesh.old) }
    requires done { IsDone (S.mesh mesh.old) change.now }
    ensures verdict { IfOk result (IsFoundForChange (S.mesh mesh.old) change.now proof.now) }
    ensures same { S.mesh mesh.new ≡ S.mesh mesh.old }
    ensures marks { BeginsWith (S.kept mesh.new) (S.kept mesh.old) }
    ensures kept { S.kept mesh.new ≡ S.kept mesh.old }
{
    let fresh_from = mesh.next_face();
    let Some(laid) = lay(alloc, mesh, change)? else {
        return Ok(None);
    };
    let found = judge_near(
        alloc,
        mesh,
        laid.ways.as_slice(),
        laid.claim,
        proof,
        fresh_from,
    );
    mesh.back_to(laid.mark);
    match found {
        Ok(verdict) => Ok(Some(verdict)),
        Err(fault) => Err(fault),
    }
}
