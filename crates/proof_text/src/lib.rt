//! The text of certificates: how it is read and printed.
#![tactic(auto)]

mod first_fault;
pub mod laws;
mod lines;
mod nodes;
mod parser;
mod printer;
mod proof_at;
mod proof_line;
mod proof_reader;
mod reader;

pub use parser::read_proof;
pub use printer::print_proof;
pub use proof_at::{ProofAt, Proofs};
pub use proof_reader::ProofReader;

/// The greatest size of a number that 25 digits write.
pub const NUMBER_MAX: u128 = 9_999_999_999_999_999_999_999_999;
