//! One of the five edits, as it is asked for.
#![tactic(auto)]

mod dispatch;
pub mod laws;

pub use dispatch::edit;
