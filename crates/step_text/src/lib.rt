//! Step texts: the directives that their lines give, or the first line outside the grammar.
#![tactic(auto)]

mod directive;
pub mod laws;
mod parser;

pub use directive::{Directive, Directives, Placed};
pub use parser::read_steps;

/// The greatest number of groups that may be open at once.
pub const GROUPS_MAX: usize = 8;
/// The greatest number of impulse passes that may be set.
pub const PASSES_MAX: u8 = 100;
