//! What is claimed of the halves of an interval.
ghost use Rattle.std.specs.Prelude.{◌≡◌};
ghost use Rattle.motion_proof.specs.Trees.{first_claim, second_claim};

use crate::certificate::Claim;

/// The claim for the first half.
pub(crate) fn first_claim(claim: Claim) -> Claim
    ensures { result ≡ first_claim claim }
{
    match claim {
        Claim::Along => Claim::Along,
        Claim::After => Claim::After,
        Claim::Before => Claim::Along,
    }
}

/// The claim for the second half.
pub(crate) fn second_claim(claim: Claim) -> Claim
    ensures { result ≡ second_claim claim }
{
    match claim {
        Claim::Along => Claim::Along,
        Claim::After => Claim::Along,
        Claim::Before => Claim::Before,
    }
}
