//! Which edits leave a mesh in as many pieces and with the same Euler number.
#![tactic(auto)]

mod kept_shape;
pub mod laws;
mod link;

pub use kept_shape::{collapse_keeps_shape, keeps_shape};
