//! Boxes by their places in a list, in a tree of boxes that finds those near a box.
#![tactic(auto)]

mod collection;
mod construction;
mod crowds;
mod curve_order;
mod labelled_box;
mod labels;
pub mod laws;
mod node;
mod question;
mod small_box;
mod traversal;
mod tree;

pub use curve_order::places_along_curve;
pub use labelled_box::LabelledBox;
pub use labels::Labels;
pub(crate) use node::Node;
pub(crate) use question::Question;
pub use small_box::SmallBox;
pub use tree::BoxTree;
