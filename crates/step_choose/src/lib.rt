//! How a step is taken: by the asked shifts where all pairs pass, and otherwise by impulses, by impact zones, by the fewest
//! halvings of the asked shifts with which all pass, or not at all.
#![tactic(auto)]

mod asked_pairs;
mod choice;
mod halved_shifts;
mod impulses;
mod list_source;
mod rounds;
mod settings;
mod way;

pub use asked_pairs::asked_hits;
pub use choice::{Choice, choose, choose_by_hits};
pub use settings::Settings;

/// The greatest number of impulse passes that may be set.
pub const PASSES_MAX: u8 = 100;
