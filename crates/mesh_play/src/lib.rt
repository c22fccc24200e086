//! Lists of calls of a surface, and what they answer, whichever way the surface is kept.
#![tactic(auto)]

mod acts;
mod call_sequence;
mod calls;
mod questions;
mod three;

pub use acts::do_act;
pub use call_sequence::{play, play_both, play_one};
pub use calls::{Act, Answer, Answers, Call, Question};
pub use three::{ThreeAnswers, play_three};
