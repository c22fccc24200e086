//! The card of a run at the program's edge: the word of the command line that names it, a desk and a sink that take the marks of what is
//! read and written, and what is told of a card that is not that of the job.
#![tactic(auto)]

mod card_desk;
mod card_words;
mod marked_sink;
mod sentences;

pub use card_desk::{Asked, CardDesk};
pub use card_words::{CardWords, without_card};
pub use marked_sink::MarkedSink;
pub use sentences::{card_reason, difference_reason};
