//! Laws of edits. Each is the contract of a function that does nothing.

ghost use Rattle.std.specs.Prelude.{Bool, ◌≡◌};
ghost use Rattle.grid_base.specs.declared.Positions.{Positions};
ghost use Rattle.grid_base.specs.SeparationTests.{IsExact};
ghost use Rattle.edit_base.specs.Beside.{IsBeside};
ghost use Rattle.edit_base.specs.Laws.{NoneFailingIsClear, ClassesAreLinked, OfEachEdge};

/// Where no pair of a scaffold fails to do what is required of it, by an exact test of meeting, no pair meets at any fraction of
/// the motion, but at the start, or the end, where two may touch there.
pub fn no_failing_pair_is_a_clear_motion()
    ensures { (meets : Positions → Bool) → IsExact meets → NoneFailingIsClear meets }
{}

/// Beside an edge of a sound and closed mesh, named by its two ends in any order, are two faces, one each way.
pub fn edges_have_two_faces()
    ensures { OfEachEdge IsBeside }
{}

/// A class of numbers, as a fan of faces is one, has those to which a chain leads whose neighbours touch, and no others.
pub fn classes_are_linked()
    ensures { ClassesAreLinked }
{}
