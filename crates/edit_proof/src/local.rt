//! The maker of certificates and their check, with a look at what is near what an edit touches alone.
ghost use Rattle.std.specs.Prelude.{IfOk};
ghost use Rattle.motion_proof.specs.Acceptance.{AreWays};
ghost use Rattle.edit_check.specs.Untouched.{IsClearWhereUntouched};
ghost use Rattle.motion_proof.specs.OfWays.{IsMadeOfWays, IsAcceptedIfMadeOfWays};
ghost use Rattle.motion_proof.specs.OfWays.{IsVerdictOfWays, AcceptsExactly, IsClearIfAccepted};

use crate::near::needing_near;
use grid_base::NoMemory;
use mesh_base::Surface;
use motion_proof::{Certificate, Claim, Made, Verdict, Way, made_of, verdict_of};
use pair_scan::MovedVertices;
use std::alloc::Global;

/// What `certify` makes of a motion in half units, word for word, where no untouched pair meets: a certificate of the
/// claim, or the first pair that does not pass its written test. Faces from the id `fresh_from` on are new. A pair is
/// untouched where its edge is a side of a face that is not new, its face is not new, and no vertex of the two moves.
/// So a mesh may be given that agrees with a clear one but for faces from that one's next id on and the vertices that
/// move, as the mesh on which an edit is tested does.
///
/// What is looked at are the faces near a box around what is new or moves, as the mesh finds them, and their sides.
/// Refuses only where there is no memory.
pub fn certify_near<S: Surface>(
    alloc: Global,
    mesh: &S,
    ways: &[Way],
    claim: Claim,
    fresh_from: u32,
) -> Result<Made, NoMemory>
    requires fits { AreWays ways.now }
    requires clear { IsClearWhereUntouched (S.mesh mesh.now) ways.now fresh_from }
    ensures made { IfOk result (IsMadeOfWays (S.mesh mesh.now) ways.now claim) }
    // What is made is accepted.
    ensures accepted { IfOk result (IsAcceptedIfMadeOfWays (S.mesh mesh.now) ways.now claim) }
{
    let going = MovedVertices { mesh, moves: ways };
    let names = needing_near(alloc, &going, fresh_from)?;
    made_of(alloc, mesh, &going, names.as_slice(), claim)
}

/// What `accepts` answers to a certificate of a motion in half units, word for word, where no untouched pair meets, as
/// `certify_near` has it: Accepted exactly where it proves the claim; else the first entry that names no pair, the
/// first whose tree is not valid, or the first pair without an entry that needs one, in this order. Accepted: the
/// motion is clear, as claimed.
///
/// What is looked at are the entries, the faces near a box around what is new or moves, and their sides. Refuses only
/// where there is no memory.
pub fn accepts_near<S: Surface>(
    alloc: Global,
    mesh: &S,
    ways: &[Way],
    proof: &Certificate,
    fresh_from: u32,
) -> Result<Verdict, NoMemory>
    requires fits { AreWays ways.now }
    requires clear { IsClearWhereUntouched (S.mesh mesh.now) ways.now fresh_from }
    ensures exact { IfOk result (IsVerdictOfWays (S.mesh mesh.now) ways.now proof.now) }
    ensures accepted { IfOk result (AcceptsExactly (S.mesh mesh.now) ways.now proof.now) }
    ensures clear { IfOk result (IsClearIfAccepted (S.mesh mesh.now) ways.now proof.now) }
{
    let going = MovedVertices { mesh, moves: ways };
    let names = needing_near(alloc, &going, fresh_from)?;
    Ok(verdict_of(mesh, &going, names.as_slice(), proof))
}
