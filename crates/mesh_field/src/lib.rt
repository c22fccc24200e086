//! Stored fields: up to sixteen names, and one closure that answers for each of them at a point, within a kept reach.
#![tactic(auto)]

mod fields;

pub use fields::{Fields, no_fields};

/// The greatest number of stored fields.
pub const FIELDS_MAX: usize = 16;
