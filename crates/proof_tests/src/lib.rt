//! Worked examples on the texts of proofs, and on what edits are tested on.
#![tactic(auto)]

#[cfg(test)]
mod same;
#[cfg(test)]
mod scaffolds;
#[cfg(test)]
mod texts;
