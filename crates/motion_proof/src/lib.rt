//! Certificates: proofs that no pair of a motion meets, which anyone can check, and their maker.
#![tactic(auto)]

mod accept;
mod certificate;
mod certificates;
mod directions;
mod frame;
mod halves;
pub mod laws;
mod maker;
mod moves_in_order;
mod needs;
mod placed;
mod scan;
mod trees;
mod valid;

pub use accept::{accepts, verdict_of};
pub use certificate::{Certificate, Claim, Entries, Entry, Made, Tree, Verdict, Way};
pub use maker::{certify, made_of};
pub use scan::{Names, needing_along};
pub use valid::is_valid;
