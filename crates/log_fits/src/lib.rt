//! Every log of a job can be replayed, line by line.
#![tactic(auto)]

pub mod laws;
