//! Certificates of the motions of edits. Of a mesh that is clear but for what an edit touches, a motion is certified
//! and checked with a look at what is near that alone; the answers are those over all pairs.
#![tactic(auto)]

mod edits;
mod faces;
mod local;
mod near;

pub use edits::{certify_edit, judge_edit};
pub use local::{accepts_near, certify_near};
