//! Laws of collapses. Each is the contract of a function that does nothing.

ghost use Rattle.std.specs.Prelude.{ℕ};
ghost use Rattle.grid_base.specs.declared.Point.{Point};
ghost use Rattle.mesh_base.specs.Mesh.{Mesh};
ghost use Rattle.mesh_base.specs.Sides.{IsClosed};
ghost use Rattle.edit_collapse.specs.Collapse.{Cancels, with_cancelled, collapse_mesh};
ghost use Rattle.edit_collapse.specs.Laws.{CollapseIsSound, CollapsesAreClear};
ghost use Rattle.edit_collapse.specs.Answer.{OfCollapses, OfExactCollapses};
ghost use Rattle.edit_base.specs.Laws.{AlwaysMakes, StaysSound, StaysClosed, StaysClear, MotionIsClear, OfEachEdge};
ghost use Rattle.edit_collapse.specs.SolidEnds.{SolidEndsStay};
ghost use Rattle.edit_collapse.specs.Done.{IsCollapse, collapse_result, collapse_tested_on};

/// The third act of a collapse, which drops faces with their opposites, is done until no face at the vertex has an opposite.
pub fn third_acts_leave_no_opposite()
    ensures { (m : Mesh) (a : ℕ) → Cancels a m (with_cancelled m a) }
{}

/// The motion of a done collapse, in which the two ends of the edge come together, is clear.
pub fn collapses_move_clear()
    ensures { OfExactCollapses (MotionIsClear collapse_tested_on) }
{}

/// A done collapse of a sound, closed and clear mesh leaves one.
pub fn collapses_keep_the_mesh()
    ensures kind { OfCollapses (AlwaysMakes IsCollapse) }
    ensures sound { OfCollapses (StaysSound collapse_result) }
    ensures closed { OfCollapses (StaysClosed collapse_result) }
    ensures clear { OfExactCollapses (StaysClear collapse_result) }
{}

/// A done collapse goes to the end that is solid, of which there is one at most, and to the midpoint, rounded down, where neither
/// is. The vertex that is left is solid exactly where an end was; every other vertex stays where it is, and keeps its mark.
pub fn solid_ends_stay()
    ensures { OfCollapses SolidEndsStay }
{}

/// At whatever point the two ends come together, a collapse of an edge leaves a closed mesh, a sound one where no face is
/// doubled and no limit passed, and a clear one where no pair fails to do what is required of it on the way.
pub fn collapses_to_any_point()
    ensures closed { OfEachEdge (λ m s. (at : Point) → IsClosed (collapse_mesh m s.a s.b at)) }
    ensures sound { OfEachEdge CollapseIsSound }
    ensures clear { CollapsesAreClear }
{}
