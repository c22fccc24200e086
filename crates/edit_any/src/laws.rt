//! Laws of all edits. Each is the contract of a function that does nothing.
ghost use Rattle.edit_base.specs.Laws.{StaysSound, StaysClosed, StaysClear, MotionIsClear};
ghost use Rattle.edit_any.specs.Midpoints.{SplitsAreHalfway, EndsMeetHalfway};
ghost use Rattle.edit_any.specs.SolidVertices.{SolidVerticesAlwaysStay};
ghost use Rattle.edit_any.specs.Dispatch.{edited, scaffold_of, OfEdits, OfExactEdits};
ghost use Rattle.edit_any.specs.Answered.{EditsStayDone, ChangesTellTheEdit};

/// Whatever edit is asked for: where it is done, a sound, closed and clear mesh is so again, and the motion of the edit is clear.
pub fn edits_keep_the_mesh()
    ensures sound { OfEdits (StaysSound edited) }
    ensures closed { OfEdits (StaysClosed edited) }
    ensures clear { OfExactEdits (StaysClear edited) }
    ensures motion { OfExactEdits (MotionIsClear scaffold_of) }
{}

/// Whatever edit is asked for: where it is done, a solid vertex that is left stands where it stood and is solid. A vertex that lives
/// before and after is solid exactly if it was, but for the end that a collapse leaves; and a new one is not.
pub fn solid_vertices_stay()
    ensures { OfEdits SolidVerticesAlwaysStay }
{}

/// The new vertex of a split, and the end of an edge that a collapse leaves where neither end is solid, stand in the middle of the
/// edge, each component rounded down: the middle of two points is always a point of the box.
pub fn new_points_are_midpoints()
    ensures split { SplitsAreHalfway }
    ensures collapse { EndsMeetHalfway }
{}

/// Whatever edit is asked for: where it is done, tested to some depth, it is done with the same change at each greater depth,
/// and where it is asked for again in the words of its change, with the ids in their order.
pub fn done_edits_are_done_again()
    ensures deeper { EditsStayDone }
    ensures by_change { ChangesTellTheEdit }
{}
