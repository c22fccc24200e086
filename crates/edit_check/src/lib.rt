//! The test of a motion of a mesh, as an edit makes one: a few vertices move, and a few faces are new.
#![tactic(auto)]

mod boxed;
mod face_pairs;
mod first_pair;
pub mod laws;
mod moves;
mod nearby;
mod neighbourhood;
mod pair_search;
mod pair_test;
mod path_boxes;
mod reach;
mod sides;
mod terms;
mod touched;

pub use edit_base::{Move, Touch};
pub use first_pair::{check, check_still};
pub use reach::reach_of;
