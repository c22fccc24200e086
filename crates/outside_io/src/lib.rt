//! What a program meets outside: a sink that takes bytes, and hears of the run, and a desk that keeps files by their names.
//! Each counts its faults, so that a caller can tell a fault of theirs from one of its own.
#![tactic(auto)]

mod atomic_store;
mod beside;
mod bounded_read;
mod desk;
mod fact;
mod limits;
mod line_counts;
mod listed;
mod locks;
mod memory_desk;
mod memory_sink;
mod outside;
mod pipes;
mod real;
mod shelf;
mod sink;
mod stop;
mod tally;
mod told;
mod trouble;

pub use desk::{Desk, FetchFault, StoreFault};
pub use fact::{Ending, Fact, LineKind, SurfaceFacts};
pub use locks::TryLock;
pub use memory_desk::MemoryDesk;
pub use memory_sink::MemorySink;
pub use outside::{Ends, Fetched, Outside};
pub use real::{FileDesk, StdSink};
pub use sink::{Failed, Sink, put_all};
pub use stop::Stop;
pub use tally::{TallyDesk, TallySink};
pub use trouble::{Step, Trouble};
