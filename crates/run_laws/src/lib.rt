//! Laws of a run's log. Its lines are in their ranges, so that what is printed of them is read back as these lines; and the
//! generated job is lawful, and each of its steps is taken whole.
#![tactic(auto)]

pub mod laws;
