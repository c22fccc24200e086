//! A step that asks few vertices to move: whether all pairs pass in it, as is seen near these vertices.
#![tactic(auto)]

mod few;
mod moves;
mod near;

pub use near::all_pass_near;

/// So many vertices that are asked to move are few.
pub const FEW_MAX: u8 = 16;
