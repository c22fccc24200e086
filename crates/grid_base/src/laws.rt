//! Laws of meeting and of motion. Each is the contract of a function that does nothing.

ghost use Rattle.std.specs.Prelude.{ℕ, Bool, ◌≡◌, ◌<◌, ◌↔◌};
ghost use Rattle.grid_base.specs.declared.grid.Point.{Point};
ghost use Rattle.grid_base.specs.declared.grid.Shift.{Shift};
ghost use Rattle.grid_base.specs.declared.TheConstants.{BOX, SHIFT_MAX};
ghost use Rattle.grid_base.specs.Triples.{Triple, IsWithin};
ghost use Rattle.grid_base.specs.Points.{position_of, displacement_of, point_at, shift_by};
ghost use Rattle.grid_base.specs.Meeting.{Positions, MeetAt};
ghost use Rattle.grid_base.specs.Motion.{NeverMeet, NeverMeetAfterStart, NeverMeetBeforeEnd};
ghost use Rattle.grid_base.specs.Separation.{IsBelow, TakesApart, BringsTogether, MoveTogether, AreKeptApart, AreTakenApart, AreSeparated, Passes, Opens, Closes, multiple};
ghost use Rattle.grid_base.specs.SeparationTests.{IsExact, IsTestOf, are_separated, passes, opens, closes};
ghost use Rattle.grid_base.specs.Deeper.{HoldsDeeper, IsTrueDeeper};

/// The point at the position of a point is that point; the point at a position within the box stands there.
pub fn points_are_positions()
    ensures of_point { (p : Point) → point_at (position_of p) ≡ p }
    ensures within { (t : Triple) → IsWithin BOX t → position_of (point_at t) ≡ t }
{}

/// The shift by the displacement of a shift is that shift; the shift by a displacement within the limit moves by it.
pub fn shifts_are_displacements()
    ensures of_shift { (s : Shift) → shift_by (displacement_of s) ≡ s }
    ensures within { (t : Triple) → IsWithin SHIFT_MAX t → displacement_of (shift_by t) ≡ t }
{}

/// A direction that has both ends of an edge below all corners of a triangle keeps them from meeting.
pub fn below_never_meets()
    ensures { (n : Triple) (f : Positions) → IsBelow n f → ¬ (MeetAt f) }
{}

/// Positions multiplied by one positive number meet exactly where they meet before.
pub fn multiples_meet_alike()
    ensures { (n : ℕ) (f : Positions) → 0 < n → (MeetAt (multiple n f) ↔ MeetAt f) }
{}

/// Positions that move together and do not meet at the start meet at no fraction.
pub fn together_never_meets()
    ensures { (s t : Positions) → MoveTogether s t → ¬ (MeetAt s) → NeverMeet s t }
{}

/// A separated pair meets at no fraction.
pub fn separated_never_meets()
    ensures { (depth : ℕ) (s t : Positions) → AreSeparated depth s t → NeverMeet s t }
{}

/// A pair that passes meets at no fraction.
pub fn passing_never_meets()
    ensures { (depth : ℕ) (s t : Positions) → Passes depth s t → NeverMeet s t }
{}

/// A pair that opens meets at no fraction above zero.
pub fn opening_never_meets_after_start()
    ensures { (depth : ℕ) (s t : Positions) → Opens depth s t → NeverMeetAfterStart s t }
{}

/// A pair that closes meets at no fraction below one.
pub fn closing_never_meets_before_end()
    ensures { (depth : ℕ) (s t : Positions) → Closes depth s t → NeverMeetBeforeEnd s t }
{}

/// A pair that one of the 23 directions keeps apart at both ends is separated at each depth.
pub fn kept_apart_is_separated()
    ensures { (depth : ℕ) (s t : Positions) → AreKeptApart s t → AreSeparated depth s t }
{}

/// A pair that one of the 23 directions takes apart opens at each depth.
pub fn taken_apart_opens()
    ensures { (depth : ℕ) (s t : Positions) → AreTakenApart s t → Opens depth s t }
{}

/// A direction brings a pair together exactly where it takes the pair apart in the motion backwards.
pub fn bringing_together_is_taking_apart_backwards()
    ensures { (s t : Positions) (n : Triple) → (BringsTogether s t n ↔ TakesApart t s n) }
{}

/// A pair that stands still passes exactly where it does not meet.
pub fn still_pairs_pass_where_apart()
    ensures { (depth : ℕ) (f : Positions) → (Passes depth f f ↔ ¬ (MeetAt f)) }
{}

/// Positions that meet at no fraction of a motion do not meet at its ends. Those that meet at no fraction above zero do
/// not meet at its end, and those that meet at no fraction below one do not meet at its start.
pub fn ends_are_apart()
    ensures start { (s t : Positions) → NeverMeet s t → ¬ (MeetAt s) }
    ensures end { (s t : Positions) → NeverMeet s t → ¬ (MeetAt t) }
    ensures end_after_start { (s t : Positions) → NeverMeetAfterStart s t → ¬ (MeetAt t) }
    ensures start_before_end { (s t : Positions) → NeverMeetBeforeEnd s t → ¬ (MeetAt s) }
{}

/// The test of separation is true exactly where the definition holds.
pub fn separation_is_tested()
    ensures { IsTestOf are_separated AreSeparated }
{}

/// The test of passing is true exactly where the definition holds, by any exact test of meeting.
pub fn passing_is_tested()
    ensures { (meets : Positions → Bool) → IsExact meets → IsTestOf (passes meets) Passes }
{}

/// The test of opening is true exactly where the definition holds.
pub fn opening_is_tested()
    ensures { IsTestOf opens Opens }
{}

/// The test of closing is true exactly where the definition holds.
pub fn closing_is_tested()
    ensures { IsTestOf closes Closes }
{}

/// What is separated, passes, opens or closes to some depth does so to each greater one; by the tests too, where that of
/// passing takes any test of meeting.
pub fn more_depth_keeps_what_passes()
    ensures separated { HoldsDeeper AreSeparated }
    ensures passes { HoldsDeeper Passes }
    ensures opens { HoldsDeeper Opens }
    ensures closes { HoldsDeeper Closes }
    ensures passing_test { (meets : Positions → Bool) → IsTrueDeeper (passes meets) }
    ensures opening_test { IsTrueDeeper opens }
    ensures closing_test { IsTrueDeeper closes }
{}
