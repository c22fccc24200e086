//! Laws of proofs of logs. Each is the contract of a function that does nothing.
ghost use Rattle.track_prove.specs.Laws.{HasNoTwoEndings, HasOneText};
ghost use Rattle.track_prove.specs.Proving.{ProveEnds};
ghost use Rattle.track_prove.specs.Verifying.{VerifyEnds};

/// Of what was given there is one ending, of `prove` as of `verify`, the first refusal that applies or none, and one text with it. That of
/// `verify` is one however a certificate lies in memory of which the text of a proof tells.
pub fn one_ending()
    ensures proves { HasNoTwoEndings ProveEnds }
    ensures proof { HasOneText ProveEnds }
    ensures verifies { HasNoTwoEndings VerifyEnds }
    ensures verdict { HasOneText VerifyEnds }
{}
