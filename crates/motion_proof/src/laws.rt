//! Laws of certificates. Each is the contract of a function that does nothing.

ghost use Rattle.std.specs.Prelude.{ℕ};
ghost use Rattle.grid_base.specs.declared.Positions.{Positions};
ghost use Rattle.grid_base.specs.Separation.{Passes, double};
ghost use Rattle.motion_proof.specs.Laws.{ValidTreesKeepApart, AcceptedMotionsAreClear, AcceptedHasNoOtherVerdict};
ghost use Rattle.motion_proof.specs.Laws.{PassingPairsAreCertified, OpeningPairsAreCertified, ClosingPairsAreCertified};

/// A pair that has a valid tree for a claim meets at no fraction of which the claim speaks.
pub fn valid_trees_keep_apart()
    ensures { ValidTreesKeepApart }
{}

/// A motion with a certificate that is accepted is clear along, after or before, as claimed.
pub fn accepted_motions_are_clear()
    ensures { AcceptedMotionsAreClear }
{}

/// A certificate that is accepted has no other verdict.
pub fn accepted_has_no_other_verdict()
    ensures { AcceptedHasNoOtherVerdict }
{}

/// A pair that passes to a depth that a step or an edit may have passes as each claim asks; one that opens passes after the
/// start, and one that closes before the end.
pub fn passing_pairs_are_certified()
    ensures passes { PassingPairsAreCertified }
    ensures opens { OpeningPairsAreCertified }
    ensures closes { ClosingPairsAreCertified }
{}

/// A pair that passes in grid units passes in half units.
pub fn doubled_pairs_pass()
    ensures { (depth : ℕ) (s t : Positions) →
        Passes depth s t → Passes depth (double s) (double t) }
{}
