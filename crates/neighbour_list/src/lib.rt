//! A neighbour list with a skin (a Verlet list, as molecular dynamics has it): the pairs of an edge and a face that are near at
//! reference points. While near vertices drift alike up to the skin, a pair that is not listed passes.
#![tactic(auto)]

mod axes;
mod calls;
mod cluster_boxes;
mod clusters;
mod construction;
mod directions;
mod five_paths;
mod heights;
pub mod laws;
mod listed;
mod near;
mod neighbour_list;
mod order;
mod pair_test;
mod reference;
mod scan;
mod validity;
mod ways;
mod widened;

pub use calls::{all_pass_listed, failing_listed};
pub use listed::ListedPair;
pub use neighbour_list::NeighbourList;
pub use reference::Reference;
pub use scan::{all_pass_by_list, failing_by_list};
