//! Proofs of logs: the command that writes one, and the command that tests one, whoever wrote it.
#![tactic(auto)]

mod due_proofs;
mod inputs;
pub mod laws;
mod prove_command;
mod report;
mod taken_lines;
mod verify_command;

pub use prove_command::prove;
pub use verify_command::verify;
