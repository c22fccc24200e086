//! Whether five positions meet is decided, for whole numbers of any size.
#![tactic(auto)]

ghost use Rattle.std.specs.Prelude.{◌↔◌, IsTrue};
ghost use Rattle.grid_base.specs.declared.Positions.{Positions};
ghost use Rattle.grid_base.specs.Meeting.{MeetAt};
ghost use Rattle.grid_base.specs.SeparationTests.{IsExact};
ghost use Rattle.grid_decided.specs.Decided.{meets_exactly};

/// The exact test of meeting, `meets_exactly`, is true exactly where an edge and a triangle meet.
///
/// What is defined from meetings, as the first pair of a mesh that meets, the pairs that fail a motion,
/// or the answer of an edit, is a function once a test of five positions is given. The definitions take
/// that test as an argument, and contracts give them this one. It is for definitions: the call that
/// answers the same at run time is `grid_meets::meets`.
pub fn meeting_is_decided()
    ensures { (f : Positions) → (IsTrue (meets_exactly f) ↔ MeetAt f) }
{}

/// The same, in the word of the definitions that take a test.
pub fn exact_test_is_exact()
    ensures { IsExact meets_exactly }
{}
