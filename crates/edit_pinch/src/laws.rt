//! Laws of pinches. Each is the contract of a function that does nothing.

ghost use Rattle.edit_pinch.specs.Answer.{OfPinches, OfExactPinches};
ghost use Rattle.edit_base.specs.Laws.{AlwaysMakes, StaysSound, StaysClosed, StaysClear, MotionIsClear};
ghost use Rattle.edit_pinch.specs.Done.{IsPinch, pinch_result, pinch_tested_on};
ghost use Rattle.edit_pinch.specs.Laws.{CopiesAreShifted, NoSolidIsPinched, PinchesKeepMarks, PinchedMeshesAgree};

/// A done pinch of a sound, closed and clear mesh leaves one, and its motion, in which the vertex and its copies go apart, is
/// clear. The copy for a fan stands at the vertex's point plus the fan's shift.
pub fn pinches_keep_the_mesh()
    ensures kind { OfPinches (AlwaysMakes IsPinch) }
    ensures sound { OfPinches (StaysSound pinch_result) }
    ensures closed { OfPinches (StaysClosed pinch_result) }
    ensures clear { OfExactPinches (StaysClear pinch_result) }
    ensures motion { OfExactPinches (MotionIsClear pinch_tested_on) }
    ensures shifted { CopiesAreShifted }
{}

/// No done pinch is of a solid vertex. A pinch changes no mark, so its copies are not solid.
pub fn solid_vertices_are_not_pinched()
    ensures answer { NoSolidIsPinched }
    ensures marks { PinchesKeepMarks }
{}

/// A mesh of which a vertex is pinched agrees with it but for new faces and the moved vertex, which is to be named among those that
/// move; so after the pinch of a clear mesh only what is new or moves need be tested.
pub fn pinched_meshes_agree()
    ensures { PinchedMeshesAgree }
{}
