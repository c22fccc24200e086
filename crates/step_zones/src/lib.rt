//! Impact zones: blocks of vertices that move as one.
#![tactic(auto)]

mod blocks;
mod failing_source;
mod found;
mod labels;
pub mod laws;
mod totals;
mod zone_search;

pub use blocks::Blocks;
pub use failing_source::{ByScan, TellsFailing};
pub use found::Zoned;
pub use zone_search::{zones, zones_told};
