//! Laws of splits. Each is the contract of a function that does nothing.

ghost use Rattle.edit_split.specs.Answer.{OfSplits, OfExactSplits};
ghost use Rattle.edit_base.specs.Laws.{AlwaysMakes, StaysSound, StaysClosed, StaysClear, MotionIsClear, OfEachEdge};
ghost use Rattle.edit_split.specs.Done.{IsSplit, split_result, split_tested_on};
ghost use Rattle.edit_split.specs.Laws.{SplitTakesRoom, SplitFacesAreFresh, SplitMeshesAgree};

/// A split may be made where it passes no limit, which the counts of the mesh tell: each of its four faces may be made when
/// its turn comes.
pub fn splits_can_be_made()
    ensures room { OfEachEdge SplitTakesRoom }
    ensures faces { OfEachEdge SplitFacesAreFresh }
{}

/// A done split of a sound, closed and clear mesh leaves one, and the motion from the edge to its two halves is clear.
pub fn splits_keep_the_mesh()
    ensures kind { OfSplits (AlwaysMakes IsSplit) }
    ensures sound { OfSplits (StaysSound split_result) }
    ensures closed { OfSplits (StaysClosed split_result) }
    ensures clear { OfExactSplits (StaysClear split_result) }
    ensures motion { OfExactSplits (MotionIsClear split_tested_on) }
{}

/// A mesh of which an edge is split agrees with it but for new faces, so that after the split of a clear mesh only these need be tested.
pub fn split_meshes_agree()
    ensures { SplitMeshesAgree }
{}
