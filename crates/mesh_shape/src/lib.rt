//! What keeps lists of points and faces from making a closed mesh: the first fault, or all of them.
#![tactic(auto)]

mod all_faults;
mod balance;
mod doubled;
mod fault_list;
mod good_shape;
pub mod laws;
mod rows;

pub use all_faults::shape_faults;
pub use good_shape::shape;
