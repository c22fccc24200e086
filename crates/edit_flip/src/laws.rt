//! Laws of flips. Each is the contract of a function that does nothing.

ghost use Rattle.edit_flip.specs.Answer.{OfFlips, OfExactFlips};
ghost use Rattle.edit_base.specs.Laws.{AlwaysMakes, StaysSound, StaysClosed, StaysClear, MotionIsClear, OfEachEdge};
ghost use Rattle.edit_flip.specs.Laws.{FlipTakesRoomOfSplit, FlipFacesAreFresh};
ghost use Rattle.edit_flip.specs.Done.{IsFlip, flip_result, flip_tested_on};

/// A flip takes no more room than its scaffold, which is a split's, and each of its two faces may be made when its turn
/// comes, where the opposite vertices are two and no edge.
pub fn flips_can_be_made()
    ensures room { OfEachEdge FlipTakesRoomOfSplit }
    ensures faces { OfEachEdge FlipFacesAreFresh }
{}

/// A done flip of a sound, closed and clear mesh leaves one. Its motion, from the edge to the middle of the two opposite
/// vertices, is clear; what it leaves is clear since each of its new parts is two of the scaffold's at the end.
pub fn flips_keep_the_mesh()
    ensures kind { OfFlips (AlwaysMakes IsFlip) }
    ensures sound { OfFlips (StaysSound flip_result) }
    ensures closed { OfFlips (StaysClosed flip_result) }
    ensures clear { OfExactFlips (StaysClear flip_result) }
    ensures motion { OfExactFlips (MotionIsClear flip_tested_on) }
{}
