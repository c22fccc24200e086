//! A map from items to extents that finds the items near an extent by the cells that they touch.
#![tactic(auto)]

mod bounds;
mod cells;
mod entries;
mod grid;
mod items;
pub mod laws;
mod lookup;

pub use grid::Grid;
pub use grid_base::Extent;

// An extent that touches more cells than this is looked at by every question.
pub(crate) const CELLS_MAX: u32 = 64;
